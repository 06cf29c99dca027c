//! Drawn lists of calls with steps of points between them, cut short wherever they can be.
//!
//! `schedules` draws them, cuts them short by crashes of many kinds, and compares what is found after one with what the same calls
//! leave that aren't cut short.
//!
//! No clause promises what comes out, since it is compared: `sn_tests_crashes` runs it.
#![tactic(auto)]

mod schedules;

pub use schedules::{run, sweep};
