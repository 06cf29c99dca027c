//! The cases of whole archives: what is written of trees in images, and what is made of archives there.
//!
//! Each part is a crate `sn_tests_..` of its own, which says what it compares. It is a program of its own, since the program's own
//! cases take the longest of all to build. What is printed is compared with `stdout`. After the folder in which it runs one part may be
//! given for that alone, as in
//!
//! ```text
//! rt run -- .
//! rt run -- . imports
//! ```
#![tactic(auto)]

use anyhow::{Result, bail};
use sn_testing_tables::Report;
use std::env;

/// The parts, in the order in which they run.
const PARTS: [&str; 3] = ["exports", "imports", "import_faults"];

fn run(report: &mut Report<'_>, part: &str) -> Result<()> {
    match part {
        "exports" => sn_tests_exports::run(report),
        "imports" => sn_tests_imports::run(report),
        "import_faults" => sn_tests_import_faults::run(report),
        _ => bail!("no such part: {part}"),
    }
}

fn run_all(report: &mut Report<'_>) -> Result<()> {
    for part in PARTS {
        run(report, part)?;
    }
    Ok(())
}

fn main(rt: HostRuntime) -> Result<()> {
    let mut report = Report::new(&rt)?;
    match env::args(&rt)?.nth(2) {
        Some(part) => run(&mut report, part.as_str())?,
        None => run_all(&mut report)?,
    }
    report.end()
}
