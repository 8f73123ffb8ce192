//! The alarms of an analysis, kept in order, and the text of a report.
#![tactic(auto)]

mod list;
mod text;
mod types;

pub use list::Alarms;
pub use text::report_text;
pub use types::{Alarm, AlarmKind};
