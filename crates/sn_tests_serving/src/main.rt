//! The cases of a server of a mount: conversations of the system with it, over images in memory.
//!
//! It is a program of its own, since a mounted file system is below it. What is printed is compared with `stdout`. The argument is the
//! folder of the tables, as in
//!
//! ```text
//! rt run -- data
//! ```
#![tactic(auto)]

use anyhow::Result;
use sn_testing_tables::Report;

fn main(rt: HostRuntime) -> Result<()> {
    let mut report = Report::new(&rt)?;
    sn_tests_serve::run(&mut report)?;
    report.end()
}
