//! Reports that follow from a refusal's name alone.

use resil_heads::subject::Subject;

/// The report that follows from a refusal's name alone: the command's own, or else the one that all commands share.
pub(crate) fn said_of<S: Subject>(subject: S, name: &str) -> Option<&'static str> {
    subject.said_of(name).or(shared(name))
}

// The report of a refusal that several commands have.
fn shared(name: &str) -> Option<&'static str> {
    Some(match name {
        "TooLong" => "an input may have at most 1048576 bytes",
        "CoreOutOfRange" => "the core size must be from 1 to 64",
        "ReservedName" =>
            "the configuration `default` is predefined, with 25 permits, and can't be set",
        "NoSuchConfig" => "a configuration must be one of the table `permits`, or `default`",
        "IntervalTooLong" => "`interval` and `cap` may be at most 31536000000 ms",
        "BadMultiplier" => "a multiplier `[p, q]` must have 1 <= q <= p <= 1000",
        "CapBelowInitial" =>
            "`cap` must not be shorter than `interval`, which is 500 ms if it is absent",
        "NoAttempts" => "a retry must have at least 1 attempt",
        "TooManyAttempts" => "a retry may have at most 1000 attempts",
        "TooManyLayers" => "a chain may have at most 8 layers",
        _ => return None,
    })
}
