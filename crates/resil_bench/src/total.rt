//! What threads counted, added up.

/// The sum of these numbers, or the maximum value if it is more.
pub(crate) fn total(counts: &[u64]) -> u64 {
    counts
        .iter()
        .fold(0, |all: u64, own| all.saturating_add(*own))
}
