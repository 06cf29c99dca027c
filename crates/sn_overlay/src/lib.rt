//! What changed of a tree since a root, and the tree that is seen through that.
//!
//! The model is a layer (`specs/Layers`): finite maps of nodes that changed or are gone, of
//! names that have another number or none, and of blocks that were written. `through layer tree` is the
//! tree of `sn_model` that is seen through it, of a tree below. What a layer has comes first; what a
//! gone node had, or one made anew had before, is hidden, and so are the blocks past the least size
//! that a file had since the layer began (`cut`).
//!
//! The way through it:
//!
//! 1. `specs/Pieces`: a file's bytes as blocks, and back.
//! 2. `specs/Layers`: layers, the tree seen through one, and when one is whole and fits a tree.
//! 3. `specs/Merges`: a newer layer over an older one as one layer.
//! 4. `specs/Needs`: the blocks that a consistency point takes for a layer, at most, and what calls are
//!    charged for that.
//! 5. `specs/Seen`: what is read of a tree below, and through a layer.
//! 6. `specs/Laws`, each named by the contract of a function of `laws`: above all, that seeing a tree
//!    through two layers is seeing it through their merge.
//! 7. `specs/Lists`: what a layer has of one directory and of one file, as lists in the order of keys.
//! 8. [`Overlay`], a layer in memory: three sorted maps in which room is made first, so that inserts,
//!    [`Overlay::drop_node`] and [`Overlay::merge`] take no memory and can't fail. What it has is
//!    read by [`Overlay::nodes`], [`Overlay::names_of`] and [`Overlay::take_blocks`].
//! 9. [`Below`], the tree that an overlay lies over, and [`Through`], such a tree seen through an overlay.
//!
//! What the sources leave open is decided in `docs/DECISIONS.md`, under "What changed since a root".
//!
//! ```text
//! top.reserve_for(&newer)?;
//! top.merge(newer);
//! let mut shown = Through { overlay: &top, below: &mut image };
//! let node = shown.node(number)?;
//! ```
#![tactic(auto)]

mod below;
mod file_block;
mod laws;
mod lists;
mod node;
mod overlay;
mod sorted;
mod through;

pub use below::Below;
pub use file_block::FileBlock;
pub use laws::{
    changes_are_paid, drops_are_paid, drops_stay_paid, layers_show_names, layers_show_nodes,
    merges_are_layers, merges_count, merges_fit, merges_lie, merges_show_both, merges_stay_paid,
    needs_add, two_levels_are_charged, versions_are_charged,
};
pub use node::{NodeChange, NodeState, SeenNode};
pub use overlay::Overlay;
pub use sn_limits::{BLOCK_SIZE, Block};
pub use through::Through;
