//! Whether a change can be applied to a tree that is read, without having the tree in memory.
//!
//! A change that a journal has can be replayed only where it can be applied: the numbers that it names
//! are there and of the right kind, those that it makes aren't taken, and what it makes is a name tree.
//! `sn_model` says when, over a whole tree (`apply`). Here that is decided by a few look-ups: no file's
//! bytes are read, and no memory is taken.
//!
//! The way through it:
//!
//! 1. [`NamedTree`], a tree as it is read: besides what `Below` of `sn_overlay` has, a look-up of a name
//!    that is lent, how many names a directory has, and whether a directory is at or below another one.
//! 2. `specs/Tests`: the tests that changes are made of, each in terms of what is read.
//! 3. `proofs/TestLemmas` and `proofs/MoveLemmas`: a change can be applied exactly where its tests pass.
//!    For a make and a rename this needs a tree whose directories form a hierarchy.
//! 4. [`applies`], which makes the tests of a change.
//!
//! What the sources leave open is decided in `docs/DECISIONS.md`, under "What changed since a root".
//!
//! ```text
//! if !applies(&limits, &mut shown, &change)? {
//!     return Ok(Replayed::Not(change));
//! }
//! let newer = of_change(alloc, &limits, &mut shown, &change)?;
//! ```
#![tactic(auto)]

mod applying;
mod moving;
mod naming;
mod reads;
mod tests;
mod view;

pub use applying::applies;
pub use view::NamedTree;
