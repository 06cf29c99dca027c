//! Cases of archives that are imported: which calls are made, in which order, and what is reported.
//!
//! The table of the cases is in the data of `sn_tests_messages`: its head lines say where the answers come from. `imports` has its words,
//! and `recorder` what answers the calls and writes them down.
//!
//! No clause promises what comes out, since it is compared: `sn_tests_messages` runs it.
#![tactic(auto)]

mod imports;
mod recorder;
mod words;

use anyhow::Result;
use sn_testing_tables::Report;

/// Compares the answers of all cases with their table. An error is a case, or the table, that can't be read, or a want of memory.
pub fn run(report: &mut Report<'_>) -> Result<()> {
    imports::run(report)
}
