//! Cases of archives as they are read: what streams hold, the paths of an image for their names, and accounts.
//!
//! The tables of the cases are in the data of `sn_tests_messages`: their head lines say where the answers come from. `streams`,
//! `places` and `accounts` have their words.
//!
//! No clause promises what comes out, since it is compared: `sn_tests_messages` runs it.
#![tactic(auto)]

mod accounts;
mod archive;
mod places;
mod streams;

use anyhow::Result;
pub use archive::{bytes_of, push_hex};
use sn_testing_tables::Report;

/// Compares the answers of all cases with their tables. An error is a case, or a table, that can't be read, or a want of memory.
pub fn run(report: &mut Report<'_>) -> Result<()> {
    streams::run(report)?;
    places::run(report)?;
    accounts::run(report)
}
