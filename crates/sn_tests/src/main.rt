//! The cases of all that is below the file system, in memory and on a disk.
//!
//! Each part is a crate `sn_tests_..` of its own, which says what it compares, and `data/` has a folder of tables for each part
//! that reads some. One program runs them all, since two compilers build each program with all that it uses. What is printed is
//! compared with `stdout`. The arguments are the folder of the tables, and after it one part for that alone, with how many trees
//! or points are drawn where it draws them, as in
//!
//! ```text
//! rt run -- data
//! rt run -- data trees
//! rt run -- data points 10000
//! ```
#![tactic(auto)]

use anyhow::{Result, bail};
use sn_testing_tables::{Report, number_of};
use std::env;

/// The parts, in the order in which they run.
const PARTS: [&str; 13] = [
    "access", "calls", "memory", "block", "files", "map", "disk", "formats", "records", "trees",
    "changes", "builds", "points",
];

/// How many trees are built where nobody says it.
const TREES: u32 = 120;

/// How many points are drawn where nobody says it.
const POINTS: u32 = 100;

/// Runs a part, which is the only one where its count is given.
fn run(report: &mut Report<'_>, part: &str, count: Option<u32>) -> Result<()> {
    match part {
        "access" => sn_tests_access::run(report),
        "calls" => sn_tests_calls::run(report),
        "memory" => sn_tests_memory::run(report),
        "block" => sn_tests_block::run(report),
        "files" => sn_tests_files::run(report),
        "map" => sn_tests_map::run(report),
        "disk" => sn_tests_disk::run(report),
        "formats" => sn_tests_formats::run(report),
        "records" => sn_tests_records::run(report),
        "trees" => sn_tests_trees::run(report),
        "changes" => sn_tests_changes::run(report),
        "builds" => sn_tests_builds::run(report, count.unwrap_or(TREES)),
        "points" => sn_tests_points::run(report, count.unwrap_or(POINTS)),
        _ => bail!("no such part: {part}"),
    }
}

/// The part that a person asks for, with its count.
fn run_one(rt: &HostRuntime, report: &mut Report<'_>, part: &str) -> Result<()> {
    let count = match env::args(rt)?.nth(3) {
        Some(count) => Some(number_of(count.as_str())?),
        None => None,
    };
    run(report, part, count)
}

fn run_all(report: &mut Report<'_>) -> Result<()> {
    for part in PARTS {
        run(report, part, None)?;
    }
    Ok(())
}

fn main(rt: HostRuntime) -> Result<()> {
    let mut report = Report::new(&rt)?;
    match env::args(&rt)?.nth(2) {
        Some(part) => run_one(&rt, &mut report, part.as_str())?,
        None => run_all(&mut report)?,
    }
    report.end()
}
