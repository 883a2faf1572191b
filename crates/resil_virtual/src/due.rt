//! What is due first.

ghost use Rattle.std.specs.Prelude.{◌≡◌};
ghost use Rattle.resil_virtual.specs.Due.{sooner};

use resil_jdk::TimedJdkEvent;

/// The sooner one of two times.
pub(crate) fn sooner_time(first: Option<u64>, other: Option<u64>) -> Option<u64>
    ensures { result ≡ sooner (λ time. time) first other }
{
    match (first, other) {
        (Some(first), Some(other)) if other < first => Some(other),
        (None, other) => other,
        (first, _) => first,
    }
}

/// The sooner one of two events; the first if both are of one moment.
pub(crate) fn sooner(
    first: Option<TimedJdkEvent>,
    other: Option<TimedJdkEvent>,
) -> Option<TimedJdkEvent>
    ensures { result ≡ sooner (λ timed. timed.at) first other }
{
    match (first, other) {
        (Some(first), Some(other)) if other.at < first.at => Some(other),
        (None, other) => other,
        (first, _) => first,
    }
}
