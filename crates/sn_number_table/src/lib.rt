//! Which numbers have a node, which are kept back, and which one a new node gets, beside a tree that is read.
//!
//! A tree on disk shows whether one number has a node. The number of a new node would be found there only by a
//! search over the nodes themselves, and which numbers are kept back is on no disk. So both are kept in a
//! table beside the tree, which a pass over its nodes fills, and which follows each change.
//!
//! The rule (`next_number` of `specs/Numbers`): a new node gets the least number that no node has and that isn't kept
//! back, or, where there is none but those, the least of them, and then none is kept back any more (`kept_after`). The
//! numbers of files that went with their last descriptor, by a close or a logout, are kept back: the change that took
//! their last name is in the log, but not that they went. A table records the numbers of a tree (`TellsNumbers`) where
//! exactly those are marked as taken that have a node in it.
//!
//! The way through it:
//!
//! 1. `specs/Table`: when a table records the numbers of a tree, and which of them are kept back.
//! 2. `mark` has what is known of a number, `marks` that of all of them, and `search` the two searches for one.
//! 3. [`NumberTable`], the table. A search begins where the last one may have ended, which only losses lower and
//!    the end of what was kept back.
//! 4. [`NamelessFiles`], the numbers of the files without names, by `specs/Nameless`: a file that goes with its last
//!    descriptor is known without a look at the tree.
//!
//! What the sources leave open is decided in `docs/DECISIONS.md`, under "The tree in memory".
//!
//! ```text
//! let mut numbers = NumberTable::new(alloc)?;
//! numbers.take(ROOT_NUMBER);
//! let Some(number) = numbers.next_number(&limits) else {
//!     return Err(Refusal::plain(Errno::Elimit));
//! };
//! numbers.make(number);
//! ```
#![tactic(auto)]

mod mark;
mod marks;
mod nameless;
mod search;
mod table;

pub use nameless::NamelessFiles;
pub use table::NumberTable;
