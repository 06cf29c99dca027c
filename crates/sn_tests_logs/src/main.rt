//! The cases of logs of any bytes that are mounted, which `sn_tests_mounts` has.
//!
//! They are a program of their own for the time that they take. They read no tables. What is printed is compared with
//! `stdout`. The argument is a folder, as in
//!
//! ```text
//! rt run -- .
//! ```
#![tactic(auto)]

use anyhow::Result;
use sn_testing_tables::Report;

fn main(rt: HostRuntime) -> Result<()> {
    let mut report = Report::new(&rt)?;
    sn_tests_mounts::run(&mut report)?;
    report.end()
}
