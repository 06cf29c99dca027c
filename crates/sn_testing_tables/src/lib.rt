//! Tables of cases, for the programs that test the libraries.
//!
//! A table is a text with a case a line, `WORDS => ANSWER`. A line that begins with `#` says where the
//! cases below it come from, and it and an empty line are no cases. A program has, for each table, a
//! function from the words of a case to the answer, as text. A `Report` reads the table, asks that
//! function, and prints each case whose answer isn't the table's and then how many cases there were.
//! A comparison that needs no table is counted by a `Tally`. Where a case is a list of steps, `push_word` and
//! `push_number` put the answers to them behind one another; `number_of`, `byte_of` and `fill_of` read the words of a step.
//!
//! ```text
//! let mut report = Report::new(&rt)?;
//! report.table("paths.txt", path)?;
//! report.end()
//! ```
#![tactic(auto)]

mod case;
mod report;
mod tally;
mod words;

pub use case::Case;
pub use report::Report;
pub use tally::Tally;
pub use words::{byte_of, fill_of, number_of, pair_of, push_number, push_word};
