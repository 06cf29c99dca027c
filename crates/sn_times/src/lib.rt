//! The times of the objects of a mount, in memory.
//!
//! The disk keeps no times. A mount shows three of each object, as POSIX.1-2017, 4.9 "File Times Update", says: what changed since the mount has
//! times of its own here, and all else of a tree has one time, the tree's base: that of the mount which first kept times of it, or, where none are kept, of
//! this one. Objects are named by the numbers by which a mount shows them: 65,536 times the home of a tree, which is 0 for the live one, and the
//! object's number there.
//!
//! Snapshots are known by their names, from one mount to the next, while each mount gives them other homes. So times that an earlier mount kept of a snapshot wait
//! until this one meets it: at a home from [`FIRST_WAITING`] on, which no number has.
//!
//! The model is [`Dates`](../specs/Dates.antt): for each home that has times its base and a finite map of times by numbers, one base for all others, and a
//! finite map of the homes of snapshots by their names. `stamps_at` says which times an object has, `marked` which it has after a [`Mark`], and `IsMarked` that
//! each object has those.
//!
//! - A time is never older than its content: a mark can't fail, and where memory is refused every object has the time of that mark from then on.
//! - A mark of an object that has times of its own needs no memory, so it is always made, and changes no other object's times (`TakesMemory`).
//! - A snapshot has the times of the moment at which it was made, and none are kept of it once it is gone, also under its name.
//! - Any number may be marked, also one that no object has.
//!
//! The way through: `stamps` has times and marks, `tree` the times of one tree, and `times` those of all. [`Times::tree`], [`Times::trees`], [`Times::names`],
//! [`Times::named`] and [`TreeTimes::entries`] go through what is kept, and [`Times::put_tree`] and [`Times::put_name`] bring times back that an earlier mount kept.
//!
//! Memory: 50 bytes for each object that has times of its own, in blocks that are half full at least, and the name of each snapshot that is known.
//!
//! What the sources leave open is decided in `docs/DECISIONS.md`, under "Times".
//!
//! ```text
//! let mut times = Times::new(alloc, now);
//! times.mark(now, Mark::Modified { number });
//! let stamps = times.stamps(number);
//! ```
#![tactic(auto)]

mod stamps;
mod times;
mod tree;

pub use stamps::{Mark, Stamps, TreeName};
pub use times::{FIRST_WAITING, Times};
pub use tree::TreeTimes;
