//! The overlay of one change over the tree that it changes.
//!
//! The model is the layer of a change (`specs/ChangeLayers`): what the change makes different of a tree,
//! and nothing else. Through it the tree is exactly what `sn_model` says that the change makes of it; it
//! lies over the tree as layers of `sn_overlay` do, and needs no more blocks than are counted for the
//! change.
//!
//! The way through it:
//!
//! 1. `specs/Blocks`: what a cut or a write leaves of a block of a file.
//! 2. `specs/ChangeLayers`: the layer of each change.
//! 3. `specs/SeenLayers`: what a layer has of the nodes that were read.
//! 4. `specs/Laws`, each named by the contract of a function of `laws`: above all, that through the layer
//!    of a change a tree is what the change makes of it.
//! 5. [`of_change`], which reads the tree below and takes all the memory that the change needs, and
//!    [`LayerFault`], why there is no overlay. Merging what it gives, where room was made, can't fail.
//!
//! What the sources leave open is decided in `docs/DECISIONS.md`, under "What changed since a root".
//!
//! ```text
//! let mut shown = Through { overlay: &top, below: &mut image };
//! let newer = of_change(alloc, &limits, &mut shown, &change)?;
//! top.reserve_for(&newer)?;
//! top.merge(newer);
//! ```
#![tactic(auto)]

mod changing;
mod fault;
mod laws;
mod made;
mod reads;
mod states;

pub use changing::of_change;
pub use fault::LayerFault;
pub use laws::{
    attributes_show, changes_are_layers, changes_count, changes_need, changes_show, cuts_keep,
    cuts_zero, drops_are_counted, drops_lie, drops_need, drops_show, links_show, makes_show,
    nameless_are_counted, nameless_stay, removes_show, renames_show, sizes_show,
    staying_is_counted, writes_keep, writes_show, writes_span, writes_splice,
};
