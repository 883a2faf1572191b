//! What a monitoring page reads about a pool: its numbers as text in the format of Prometheus.
//!
//! Names and labels are those of Resilience4j if it has them (user guide, Micrometer). The others begin with `resil_`.

use crate::state::Numbers;
use std::fmt;

// A name as the value of a label: a backslash, a quote and a newline each get a backslash before them.
#[derive(Drop)]
struct PoolLabel<'a>(&'a str);

impl fmt::Display for PoolLabel<'_> {
    fn fmt<W: fmt::Write>(&self, f: &mut fmt::Formatter<W>) -> fmt::Result {
        for letter in self.0.chars() {
            match letter {
                '\\' => f.write_str("\\\\")?,
                '"' => f.write_str("\\\"")?,
                '\n' => f.write_str("\\n")?,
                _ => write!(f, "{letter}")?,
            }
        }
        Ok(())
    }
}

/// The numbers of a pool, as text: its sizes and its jobs.
///
/// ```
/// println!(rt; "{}", PoolText { name: "orders", numbers: pool.numbers(&rt).into_value() })?;
/// ```
#[derive(Drop)]
pub struct PoolText<'a> {
    /// The name of the pool.
    pub name: &'a str,
    /// Its numbers.
    pub numbers: Numbers,
}

impl fmt::Display for PoolText<'_> {
    fn fmt<W: fmt::Write>(&self, f: &mut fmt::Formatter<W>) -> fmt::Result {
        let numbers = &self.numbers;
        let capacity = numbers.waiting.saturating_add(numbers.room);
        let gauges: [(&str, u64); 6] = [
            ("queue_depth", numbers.waiting as u64),
            ("queue_capacity", capacity as u64),
            ("active_thread_count", numbers.running as u64),
            ("thread_pool_size", u64::from(numbers.workers)),
            ("core_thread_pool_size", u64::from(numbers.core)),
            ("max_thread_pool_size", u64::from(numbers.max)),
        ];
        let name = PoolLabel(self.name);
        for (what, value) in gauges {
            write!(f, "# TYPE resilience4j_bulkhead_{what} gauge\n")?;
            write!(
                f,
                "resilience4j_bulkhead_{what}{{name=\"{name}\"}} {value}\n"
            )?;
        }
        let counters: [(&str, u64); 3] = [
            ("accepted", numbers.accepted),
            ("refused", numbers.refused),
            ("finished", numbers.finished),
        ];
        for (what, count) in counters {
            write!(f, "# TYPE resil_pool_{what}_total counter\n")?;
            write!(f, "resil_pool_{what}_total{{name=\"{name}\"}} {count}\n")?;
        }
        Ok(())
    }
}
