//! The catalogue of a root's snapshots: what a name denotes, which bit of the map's words is free, and the catalogue
//! with one snapshot more or less.
//!
//! A root body holds its snapshots by rising bit, with different names, and no more of them than its version allows.
//! The model is the finite map `catalogue` of `specs/Catalogue.antt`, from the names to the bits and the trees: `find`
//! looks a name up, `add` inserts one and `remove` removes it, and a root body stays one with what they give
//! (`laws.rt`). A new snapshot gets the least bit that no other has. No call takes memory.
//!
//! The way through: `finding` (`find`, `free_bit`), `changing` (`add`, `remove`), `listing` (`list`) and `laws`.
//!
//! What the sources leave open is decided in `docs/DECISIONS.md`, under "Snapshots".
//!
//! ```text
//! if find(&root.snapshots, &name).is_none() {
//!     let bit = free_bit(&root.snapshots, &root.limits)?;
//!     root.snapshots = add(root.snapshots, name, bit, root.inode_file);
//! }
//! ```
#![tactic(auto)]

mod changing;
mod finding;
mod laws;
mod listing;

pub use changing::{add, remove};
pub use finding::{find, free_bit};
pub use laws::{
    changes_leave_the_others, root_bodies_hold_catalogues, root_bodies_stay, versions_fit,
};
pub use listing::list;
