//! The events of a permit history: which seat took a permit, gave one back, was refused one, retired one or
//! raised one again, in one order. A history doesn't mention the word that counts the permits.

/// One event of a permit, with the number of the seat that it happened to.
///
/// Modelled on the permissions of a Bulkhead (Resilience4j user guide, Bulkhead).
///
/// ```
/// let woven = weave(alloc, 1, &[Step::Load(7), Step::Exchange(7), Step::Add(7)])?;
/// let events = [PermitEvent::Took(7), PermitEvent::Gave(7)];
/// assert_eq!(rt; woven.events.as_slice(), events.as_slice());
/// ```
#[derive(Clone, Copy, PartialEq, Eq, Debug)]
pub enum PermitEvent {
    /// The seat took a permit. Fewer were held than were in use.
    Took(u16),
    /// The seat gave back a permit that it held.
    Gave(u16),
    /// The seat was refused a permit. All permits in use were held.
    Refused(u16),
    /// The seat retired a permit that it held: it keeps the permit back, and one permit less is in use.
    Retired(u16),
    /// The seat raised a permit that it had retired: the permit is free again, and one permit more is in use.
    Raised(u16),
}
