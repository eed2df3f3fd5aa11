//! Prints the report of a run: a line for each operation, two lines for each link, and `end`; or its summary.
//!
//! `print_report`: where the words are places and each operation has an outcome, the text is that of the one report
//! that they tell (`IsReportText`), and there always is such a report. `print_summary` prints exactly the counts and
//! sums over the operations and their outcomes (`sums_of`, `summary_text`).
#![tactic(auto)]

mod links;
mod operations;
mod orders;
mod outcomes;
mod summary;
mod sums;
mod told;
mod words;
mod writing;

pub use links::ReportLabel;
pub use outcomes::{say, untold};
pub use summary::{Load, print_summary};
pub use told::print_report;
