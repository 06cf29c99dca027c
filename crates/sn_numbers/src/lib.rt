//! The live tree in memory with the number rule: which number a new node gets.
//!
//! A new node gets the least number that no node has and that isn't kept back. The numbers of files
//! that went with their last descriptor, by a close or a logout, are kept back: the change that took
//! their last name is in the log, but not that they went. They are kept back until the tree is
//! settled, or until no other number is left. Then a new node gets the least of them, and none is
//! kept back any more.
//!
//! The way through: [`NumberedTree`] is a `PlainTree` of `sn_plain` with these numbers. `kept_back` has the set of them,
//! which takes its memory at first, so that a close needs none. `specs/Numbers` of `sn_number_table` says which number is
//! next (`next_number`), and what stays kept back by a change (`kept_after`).
//!
//! What the sources leave open is decided in `docs/DECISIONS.md`, under "The tree in memory".
#![tactic(auto)]

mod kept_back;
mod numbered;

pub use numbered::NumberedTree;
