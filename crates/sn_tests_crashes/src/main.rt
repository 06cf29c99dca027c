//! The cases of crashes of a mounted file system, which `sn_tests_cuts` and `sn_tests_schedules` have.
//!
//! They are a program of their own for the time that they take. They read no tables. What is printed is compared with
//! `stdout`. The argument is a folder. With a number and a count after it, so many schedules from that number on are cut short
//! wherever they can be.
//!
//! ```text
//! rt run -- .
//! rt run -- . 0 10000
//! ```
#![tactic(auto)]

use anyhow::{Context, Result};
use sn_testing_tables::{Report, number_of};
use std::env;
use std::ops::Range;

/// The schedules that a person asks for.
fn asked(rt: &HostRuntime) -> Result<Option<Range<u32>>> {
    let mut words = env::args(rt)?.skip(2);
    let Some(first) = words.next() else {
        return Ok(None);
    };
    let first = number_of(first.as_str())?;
    let count = words.next().context("no count of schedules")?;
    let end = first.saturating_add(number_of(count.as_str())?);
    Ok(Some(first..end))
}

fn main(rt: HostRuntime) -> Result<()> {
    let mut report = Report::new(&rt)?;
    match asked(&rt)? {
        Some(numbers) => sn_tests_schedules::sweep(&mut report, numbers)?,
        None => {
            sn_tests_cuts::run(&mut report)?;
            sn_tests_schedules::run(&mut report)?;
        }
    }
    report.end()
}
