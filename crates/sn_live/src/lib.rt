//! The state of a live tree that is read on demand, and what changes do to it.
//!
//! The live tree isn't in memory: it is a tree below, seen through what a consistency point in progress writes, and
//! that through what changed since. Besides the two overlays there are the table of its directories (`sn_directories`),
//! the table of its numbers and the list of its files without names (`sn_number_table`), which are counted. They are
//! updated with each change, so that all that a call has to know is at hand, or is a look-up of the tree below.
//!
//! The model is the tree of `sn_model` that is shown, and `apply` over it. What a change asks for is read and grown
//! first ([`LiveTree::prepare`]), and nothing that is shown changes by that; then a caller records the change, and
//! [`LiveTree::commit`] makes it, takes no memory and can't fail.
//!
//! The way through:
//!
//! 1. `specs/Live`: what is shown of a tree below, and when the state belongs to it (`IsLive`). `specs/Nodes`: what a
//!    change does to nodes and to files without names. `specs/Prepared`: what is prepared for a change.
//!    `specs/Unnamed`: the files without names, and what changed without them.
//! 2. `nodes` reads what a change does to nodes, and notes it in the table, in the list and in the count.
//! 3. `preparing` reads and grows what a change asks for.
//! 4. [`LiveTree`], the state, and its changes. `dropping` has the files that go, and `points` the consistency points
//!    that begin and end.
//!
//! What the sources leave open is decided in `docs/DECISIONS.md`, under "Reading a root on demand".
//!
//! ```text
//! let Some(prepared) = live.prepare(alloc, &limits, &mut root, &change, drops)? else {
//!     return Err(Fault::CannotApply);
//! };
//! log.append(&change)?;
//! live.commit(prepared);
//! ```
#![tactic(auto)]

mod dropping;
mod live;
mod nodes;
mod points;
mod preparing;

pub use live::LiveTree;
pub use preparing::PreparedLive;
