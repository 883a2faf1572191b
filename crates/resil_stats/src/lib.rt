//! The numbers and the chart of a history of any pool of the JDK, as data and as text.
//!
//! `stats` counts the events of a history, up to its first illegal one: how often each kind happened, how full the pool got, and what each
//! caller submitted. `specs/Stats.antt` says what each number means: a filter over the events, or the greatest of a number over their
//! prefixes. If events have times, `spans` measures how long jobs waited and ran, and how long idle workers took to come:
//! `specs/Spans.antt`. `text` writes them as a table, and `results` reads the results of a run.
//!
//! `picture` draws the same events: a bar for each job that ran, marks, and how full the pool was after each event. If there are many
//! events or workers, it draws columns and how many jobs ran instead of bars. `specs/Bars.antt`, `specs/Marks.antt`, `specs/Depth.antt`,
//! `specs/Columns.antt` and `specs/Areas.antt` say what is drawn, `specs/Window.antt` of which events, and `specs/Axis.antt` where, if
//! events have times. `svg` writes it, with the results of the jobs: `specs/Svg.antt` says which elements the text has, and its templates
//! how it looks.
#![tactic(auto)]

mod areas;
mod axis;
mod bars;
mod columns;
mod depth;
mod marks;
mod picture;
pub mod results;
mod spans;
mod stats;
mod svg;
mod text;
mod window;

pub use areas::Running;
pub use axis::Period;
pub use bars::{Bar, Start};
pub use columns::{Column, column_width};
pub use depth::Level;
pub use marks::{Mark, Sign};
pub use picture::{Drawn, Illegal, Picture, legal_part, picture_of};
pub use results::OutcomesById;
pub use spans::{JdkSpans, Ranks, ranks_of, spans_of_jdk, waits_of_jdk};
pub use stats::{CallerStats, JdkAnswers, JdkCounts, JdkStats, Load, count_jdk};
pub use svg::{Caption, svg_text};
pub use text::stats_text;
pub use window::{Extent, Heights, Window};
