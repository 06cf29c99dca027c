//! The live tree and the frozen ones as walks and decisions see them, read on demand.
//!
//! Decisions are made over a view (`TreeView`, `CallView` and `MoveView`), and changes are tried on a tree that
//! is read (`NamedTree` of `sn_applies`). Here such a tree, with the table of its numbers (`sn_number_table`), is
//! a view of the live tree: a root on disk, seen through what changed since, with the table of its directories.
//! The frozen trees of snapshots are seen as they are beside it (`HasSnapshots` of `sn_live_files`).
//!
//! Each look-up of the view is one of the tree, in the live tree or in a frozen one, and whether a number is left is
//! one of the table. Where the tree is told, it has to be a name tree, and the table has to describe its numbers
//! (`IsNumbered`); then each answer is the one that the model has. A fault is the tree's.
//!
//! The tree answers what a walk learns of a node, bytes and names (`HasContents` of `sn_live_files`), so calls are
//! decided over the view too (`FileView` of `sn_core_decide_rules`): its files are read, and its directories listed.
//!
//! The way through: `specs/Live` says which trees are seen, and when a table belongs to one; `reads` has what
//! is made of one look-up, and `view` and `files` the view, [`LiveView`]. `deciding` decides a call over a live tree
//! of `sn_live` and the root below it, [`decide_live`]. `unread` is a view of which nothing is read: by it
//! [`decide_unread`] decides what needs no look-up, and says of each other call that its arguments have passed. `looking`
//! finds what user 0 finds, beside the calls, [`look_up`].
//!
//! What the sources leave open is decided in `docs/DECISIONS.md`, under "Reading a root on demand".
//!
//! ```text
//! let outcome = decide_live(alloc, &mut root, &live, &sessions, session, &call)?;
//! ```
#![tactic(auto)]

mod deciding;
mod fault;
mod files;
mod looking;
mod reads;
mod unread;
mod view;

pub use deciding::{decide_live, decide_unread};
pub use fault::Unread;
pub use looking::{Known, Sought, look_up};
pub use view::LiveView;
