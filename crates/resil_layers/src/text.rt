//! What an operator's page reads: counts as a text in the Prometheus format.
//!
//! Names and labels are Resilience4j's if it has them (user guide, Micrometer); the others begin with `resil_`.

use crate::call_counts::CallCounts;
use crate::counting::Counted;
use crate::retry_counts::{RetryCounts, RetryKind};
use crate::timing::CallTimes;
use resil_bulkhead::Bulkhead;
use std::fmt;
use std::sync::Arc;
use std::time::Duration;

// A name as the value of a label: a backslash, a quote and a newline are escaped by a backslash.
#[derive(Drop)]
struct Label<'a>(&'a str);

impl fmt::Display for Label<'_> {
    fn fmt<W: fmt::Write>(&self, f: &mut fmt::Formatter<W>) -> fmt::Result {
        for letter in self.0.chars() {
            match letter {
                '\\' => f.write_str("\\\\")?,
                '"' => f.write_str("\\\"")?,
                '\n' => f.write_str("\\n")?,
                _ => write!(f, "{letter}")?,
            }
        }
        Ok(())
    }
}

// A time in seconds, with six decimals.
#[derive(Drop)]
struct Seconds(Duration);

impl fmt::Display for Seconds {
    fn fmt<W: fmt::Write>(&self, f: &mut fmt::Formatter<W>) -> fmt::Result {
        write!(f, "{}.{:06}", self.0.as_secs(), self.0.subsec_micros())
    }
}

// The line before those of a metric, which says that it is a `counter` or a `gauge`.
fn write_type<W: fmt::Write>(f: &mut fmt::Formatter<W>, metric: &str, kind: &str) -> fmt::Result {
    write!(f, "# TYPE {metric} {kind}\n")
}

// A line of a metric: its value for what has this name.
fn write_line<W: fmt::Write, V: fmt::Display + Drop>(
    f: &mut fmt::Formatter<W>,
    metric: &str,
    name: &str,
    value: V,
) -> fmt::Result {
    write!(f, "{metric}{{name=\"{}\"}} {value}\n", Label(name))
}

/// The permits of bulkheads: how many are free, and how many there are.
///
/// ```
/// println!(rt; "{}", BulkheadsText(registry.bulkheads()))?;
/// ```
#[derive(Drop)]
pub struct BulkheadsText<'a>(pub &'a [Arc<Bulkhead>]);

impl fmt::Display for BulkheadsText<'_> {
    fn fmt<W: fmt::Write>(&self, f: &mut fmt::Formatter<W>) -> fmt::Result {
        let metric = "resilience4j_bulkhead_available_concurrent_calls";
        write_type(f, metric, "gauge")?;
        for bulkhead in self.0 {
            let free = bulkhead.available(&mut bulkhead.new_pass());
            write_line(f, metric, bulkhead.name(), free)?;
        }
        let metric = "resilience4j_bulkhead_max_allowed_concurrent_calls";
        write_type(f, metric, "gauge")?;
        for bulkhead in self.0 {
            write_line(f, metric, bulkhead.name(), bulkhead.max())?;
        }
        Ok(())
    }
}

/// Counts of calls: how many began, and their outcomes.
///
/// ```
/// let counts = [CallCounts::new("prices"), CallCounts::new("stock")];
/// println!(rt; "{}", CallsText(&counts))?;
/// ```
#[derive(Drop)]
pub struct CallsText<'a>(pub &'a [CallCounts<'a>]);

// The outcomes of calls, in the words of the label.
const ANSWERS: [(Counted, &str); 3] = [
    (Counted::Value, "value"),
    (Counted::Error, "error"),
    (Counted::Refused, "refused"),
];

impl fmt::Display for CallsText<'_> {
    fn fmt<W: fmt::Write>(&self, f: &mut fmt::Formatter<W>) -> fmt::Result {
        write_type(f, "resil_calls_total", "counter")?;
        for counts in self.0 {
            let called = counts.count(Counted::Called);
            write_line(f, "resil_calls_total", counts.name(), called)?;
        }
        let metric = "resil_answers_total";
        write_type(f, metric, "counter")?;
        for counts in self.0 {
            for (what, kind) in ANSWERS {
                let count = counts.count(what);
                let name = Label(counts.name());
                write!(f, "{metric}{{name=\"{name}\",kind=\"{kind}\"}} {count}\n")?;
            }
        }
        Ok(())
    }
}

/// Counts of retries: their outcomes, their attempts after the first, why no more were made, and the waits that the observer saw.
///
/// ```
/// let counts = [RetryCounts::new("prices")];
/// println!(rt; "{}", RetriesText(&counts))?;
/// ```
#[derive(Drop)]
pub struct RetriesText<'a>(pub &'a [RetryCounts<'a>]);

// The kinds of retries, in the words of Resilience4j's label.
const KINDS: [(RetryKind, &str); 4] = [
    (
        RetryKind::SuccessfulWithoutRetry,
        "successful_without_retry",
    ),
    (RetryKind::SuccessfulWithRetry, "successful_with_retry"),
    (RetryKind::FailedWithoutRetry, "failed_without_retry"),
    (RetryKind::FailedWithRetry, "failed_with_retry"),
];

impl fmt::Display for RetriesText<'_> {
    fn fmt<W: fmt::Write>(&self, f: &mut fmt::Formatter<W>) -> fmt::Result {
        let metric = "resilience4j_retry_calls_total";
        write_type(f, metric, "counter")?;
        for counts in self.0 {
            for (what, kind) in KINDS {
                let count = counts.count(what);
                let name = Label(counts.name());
                write!(f, "{metric}{{name=\"{name}\",kind=\"{kind}\"}} {count}\n")?;
            }
        }
        write_type(f, "resil_retries_total", "counter")?;
        for counts in self.0 {
            write_line(f, "resil_retries_total", counts.name(), counts.retried())?;
        }
        let metric = "resil_retry_ends_total";
        write_type(f, metric, "counter")?;
        for counts in self.0 {
            let ends = [
                ("exhausted", counts.exhausted()),
                ("out_of_time", counts.out_of_time()),
            ];
            for (end, count) in ends {
                let name = Label(counts.name());
                write!(f, "{metric}{{name=\"{name}\",end=\"{end}\"}} {count}\n")?;
            }
        }
        let metric = "resil_retry_events_total";
        write_type(f, metric, "counter")?;
        for counts in self.0 {
            let (name, count) = (Label(counts.name()), counts.waits());
            write!(f, "{metric}{{name=\"{name}\",kind=\"retry\"}} {count}\n")?;
        }
        Ok(())
    }
}

/// How long calls took, in seconds.
///
/// ```
/// let times = [CallTimes::new("prices")];
/// println!(rt; "{}", TimesText(&times))?;
/// ```
#[derive(Drop)]
pub struct TimesText<'a>(pub &'a [CallTimes<'a>]);

impl fmt::Display for TimesText<'_> {
    fn fmt<W: fmt::Write>(&self, f: &mut fmt::Formatter<W>) -> fmt::Result {
        let metric = "resil_call_seconds_total";
        write_type(f, metric, "counter")?;
        for times in self.0 {
            write_line(f, metric, times.name(), Seconds(times.total()))?;
        }
        let metric = "resil_call_seconds_max";
        write_type(f, metric, "gauge")?;
        for times in self.0 {
            write_line(f, metric, times.name(), Seconds(times.longest()))?;
        }
        Ok(())
    }
}
