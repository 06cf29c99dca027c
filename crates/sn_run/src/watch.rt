//! Who watches a run in progress.

/// Learns how far a run has come. What it does with that changes nothing of the run.
pub trait Watch {
    /// Of so many events so many have been answered.
    fn answered(&mut self, done: usize, all: usize);
}

/// Nobody watches.
#[derive(Clone, Copy)]
pub struct Unwatched;

impl Watch for Unwatched {
    fn answered(&mut self, _done: usize, _all: usize) {}
}
