//! The nodes and the names of a tree in memory, each as maps.
//!
//! The way through: [`Nodes`] has the nodes by number, and beside each what is kept so that no name is counted over the whole tree:
//! how many names it has and how many stand for it, and the directory that it is in. [`Links`] has the numbers by
//! directory and name, so that a name that is lent is looked up as it is. `nodes_of`, `stored_of` and `links_of` of
//! `specs/Stored` say what they stand for, as finite maps. That the counts agree with the names is up to whoever
//! keeps both, as `sn_plain` does.
//!
//! What the sources leave open is decided in `docs/DECISIONS.md`, under "The tree in memory".
#![tactic(auto)]

mod links;
mod nodes;

pub use links::Links;
pub use nodes::{Counts, Nodes, StoredNode, StoredOwnership, is_directory};
