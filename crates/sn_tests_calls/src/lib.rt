//! Cases of scripts, replies and the plain run.
//!
//! The tables of the cases are in the data of `sn_tests`: their head lines say where the answers come from. There is a
//! module for each subject: `script` (`calls` says what was read), `replies` and `plain`.
//!
//! No clause promises what comes out, since it is compared: `sn_tests` runs it.
#![tactic(auto)]

mod calls;
mod plain;
mod replies;
mod script;

use anyhow::Result;
use sn_testing_tables::Report;

/// Compares the answers of all cases with their tables, with a line for each table, and prints each reply. An error is a
/// case, or a table, that can't be read, or a lack of memory.
pub fn run(report: &mut Report<'_>) -> Result<()> {
    script::run(report)?;
    replies::run(report)?;
    plain::run(report)
}
