//! The cases of a mounted file system and of the program.
//!
//! Each part is a crate `sn_tests_..` of its own, which says what it compares. One program runs them all, since two compilers
//! build each program with all that it uses. It runs in the folder `data/`, where `examples` is a copy of the repository's folder
//! of that name. What is printed is compared with `stdout`. After the folder one part may be given for that alone, as in
//!
//! ```text
//! rt run -- .
//! rt run -- . live
//! ```
#![tactic(auto)]

use anyhow::{Result, bail};
use sn_testing_tables::Report;
use std::env;

/// The parts, in the order in which they run.
const PARTS: [&str; 6] = ["image", "fs", "live", "directories", "commands", "outputs"];

fn run(report: &mut Report<'_>, part: &str) -> Result<()> {
    match part {
        "image" => sn_tests_image::run(report),
        "fs" => sn_tests_fs::run(report),
        "live" => sn_tests_live::run(report),
        "directories" => sn_tests_directories::run(report),
        "commands" => sn_tests_commands::run(report),
        "outputs" => sn_tests_outputs::run(report),
        _ => bail!("no such part: {part}"),
    }
}

fn run_all(report: &mut Report<'_>) -> Result<()> {
    for part in PARTS {
        run(report, part)?;
    }
    Ok(())
}

fn main(rt: HostRuntime) -> Result<()> {
    let mut report = Report::new(&rt)?;
    match env::args(&rt)?.nth(2) {
        Some(part) => run(&mut report, part.as_str())?,
        None => run_all(&mut report)?,
    }
    report.end()
}
