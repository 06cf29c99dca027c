//! Archives that are imported into images in memory, and exported again.
//!
//! `importing` has an import, which `sn_tests_import_faults` makes too, and `round_trips` those of drawn trees, whose second archive has to be the
//! first byte by byte.
//!
//! No clause promises what comes out, since it is compared: `sn_tests_archives` runs it.
#![tactic(auto)]

mod importing;
mod round_trips;

use anyhow::Result;
pub use importing::{Ended, empty_image, imported};
use sn_testing_tables::Report;

/// Compares all archives. A lack of memory is an error.
pub fn run(report: &mut Report<'_>) -> Result<()> {
    round_trips::run(report)
}
