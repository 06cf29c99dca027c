//! What a person sees of a long run, and of a long check.

use crate::watched::WatchReads;
use sn_core::Watch;
use std::io::Write;
use std::time::{Clock, Instant};

/// Shows once a second how far it is, in one line that each time takes the place of the one before: how many lines of
/// a script have been answered, or how much of an image has been read. What takes less than a second shows nothing, and
/// neither does anything where the clock fails.
#[derive(Drop)]
pub struct Progress<'a, C: Clock, P: Write> {
    clock: &'a C,
    begun: Option<Instant>,
    /// The second that was shown last.
    told: u64,
    person: &'a mut P,
}

impl<'a, C: Clock, P: Write> Progress<'a, C, P> {
    pub fn new(clock: &'a C, person: &'a mut P) -> Progress<'a, C, P> {
        Progress {
            clock,
            begun: Instant::now(clock).ok(),
            told: 0,
            person,
        }
    }

    /// The seconds since the beginning, where the clock gives them.
    fn seconds(&self) -> Option<u64> {
        Some(self.begun?.elapsed(self.clock).ok()?.as_secs())
    }

    /// Whether a second has begun of which nothing was shown.
    fn is_due(&mut self) -> bool {
        match self.seconds() {
            Some(seconds) if seconds > self.told => {
                self.told = seconds;
                true
            }
            _ => false,
        }
    }

    /// Takes the line away, if there is one.
    pub fn end(self) {
        if self.told > 0 {
            let _ = write!(self.person, "\r\x1b[K");
            let _ = self.person.flush();
        }
    }
}

impl<C: Clock, P: Write> Watch for Progress<'_, C, P> {
    fn answered(&mut self, done: usize, all: usize) {
        if self.is_due() {
            let _ = write!(self.person, "\r\x1b[Ksnapfs: {done} of {all} lines");
            let _ = self.person.flush();
        }
    }
}

impl<C: Clock, P: Write> WatchReads for Progress<'_, C, P> {
    fn has_read(&mut self, sectors: u64) {
        if self.is_due() {
            let _ = write!(self.person, "\r\x1b[Ksnapfs: {} KiB read", sectors / 2);
            let _ = self.person.flush();
        }
    }
}
