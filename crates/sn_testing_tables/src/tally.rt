//! Counts of cases.

use std::io;

/// How many cases there were, and how many of them went wrong.
#[derive(Clone, Copy)]
pub struct Tally {
    cases: u64,
    wrong: u64,
}

impl Tally {
    /// Of no cases yet.
    pub fn new() -> Self {
        Tally { cases: 0, wrong: 0 }
    }

    /// Counts a case.
    pub fn count(&mut self, is_right: bool) {
        self.cases = self.cases.saturating_add(1);
        if !is_right {
            self.wrong = self.wrong.saturating_add(1);
        }
    }

    /// Counts a case that some numbers name, and prints them where it went wrong.
    pub fn check(&mut self, rt: &HostRuntime, is_right: bool, case: &[u32]) -> io::Result<()> {
        self.count(is_right);
        if !is_right {
            println!(rt; "wrong: {case:?}")?;
        }
        Ok(())
    }

    /// How many cases were counted.
    pub fn cases(self) -> u64 {
        self.cases
    }

    /// How many of them went wrong.
    pub fn wrong(self) -> u64 {
        self.wrong
    }
}
