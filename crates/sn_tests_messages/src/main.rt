//! The cases of what the system's mount asks and what it is answered.
//!
//! Each part is a crate `sn_tests_..` of its own, which says what it compares, and `data/` has a folder of tables for each part.
//! What is printed is compared with `stdout`. The arguments are the folder of the tables, and after it one part for that alone, as in
//!
//! ```text
//! rt run -- data
//! rt run -- data nodes
//! ```
#![tactic(auto)]

use anyhow::{Result, bail};
use sn_testing_tables::Report;
use std::env;

/// The parts, in the order in which they run.
const PARTS: [&str; 8] = [
    "manual", "names", "nodes", "times", "fuse", "tar", "untar", "import",
];

fn run(report: &mut Report<'_>, part: &str) -> Result<()> {
    match part {
        "manual" => sn_tests_manual::run(report),
        "names" => sn_tests_names::run(report),
        "nodes" => sn_tests_nodes::run(report),
        "times" => sn_tests_times::run(report),
        "fuse" => sn_tests_fuse::run(report),
        "tar" => sn_tests_tar::run(report),
        "untar" => sn_tests_untar::run(report),
        "import" => sn_tests_import::run(report),
        _ => bail!("no such part: {part}"),
    }
}

fn run_all(report: &mut Report<'_>) -> Result<()> {
    for part in PARTS {
        run(report, part)?;
    }
    Ok(())
}

fn main(rt: HostRuntime) -> Result<()> {
    let mut report = Report::new(&rt)?;
    match env::args(&rt)?.nth(2) {
        Some(part) => run(&mut report, part.as_str())?,
        None => run_all(&mut report)?,
    }
    report.end()
}
