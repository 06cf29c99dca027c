//! The cases of runs with restarts, which `sn_tests_runs` has, of rows that are refused what they ask of their device, which
//! `sn_tests_hostile` has, and of disks of version 1, which `sn_tests_versions` has.
//!
//! They are a program of their own for the time that they take. It runs in the folder `data/`, where its tables are. What is
//! printed is compared with `stdout`. The argument is a folder. With `hostile` or `versions`, a number and a count after it, the
//! sweeps that a person asks for are made over so many rows from that number on, which take a while.
//!
//! ```text
//! rt run -- .
//! rt run -- . hostile 0 11
//! rt run -- . versions 0 6
//! ```
#![tactic(auto)]

use anyhow::{Context, Result, bail};
use sn_testing_tables::{Report, number_of};
use std::env;
use std::ops::Range;

/// The rows that a person asks for, by the crate that has them.
#[derive(Drop)]
struct Asked {
    name: String,
    numbers: Range<usize>,
}

fn read_arguments(rt: &HostRuntime) -> Result<Option<Asked>> {
    let mut words = env::args(rt)?.skip(2);
    let Some(name) = words.next() else {
        return Ok(None);
    };
    let first = words.next().context("no number of a row")?;
    let count = words.next().context("no count of rows")?;
    let first = number_of(first.as_str())? as usize;
    let count = number_of(count.as_str())? as usize;
    let numbers = first..first.saturating_add(count);
    Ok(Some(Asked { name, numbers }))
}

fn sweep(report: &mut Report<'_>, asked: &Asked) -> Result<()> {
    match asked.name.as_str() {
        "hostile" => sn_tests_hostile::sweep(report, &asked.numbers),
        "versions" => sn_tests_versions::sweep(report, &asked.numbers),
        other => bail!("no such rows: {other}"),
    }
}

fn run(report: &mut Report<'_>) -> Result<()> {
    sn_tests_runs::run(report)?;
    sn_tests_hostile::run(report)?;
    sn_tests_versions::run(report)
}

fn main(rt: HostRuntime) -> Result<()> {
    let mut report = Report::new(&rt)?;
    match read_arguments(&rt)? {
        Some(asked) => sweep(&mut report, &asked)?,
        None => run(&mut report)?,
    }
    report.end()
}
