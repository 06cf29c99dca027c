//! The log on top of a sound root, tried over the root as it is on disk.
//!
//! Whether a record can be applied depends on those before it. What these changed is kept as a live tree of `sn_live`: an
//! overlay, with the tables that are seen through it. The next one is asked of the root's tree below: no tree is loaded, and
//! of a file no more blocks are read than a write leaves in part. The live tree after the last record is what a mount continues
//! with.
//!
//! The model is that of `sn_examine`: the records of the root's epoch and then those of the next one make a tree of the one
//! that the root denotes, and are charged so much (`HasBoth`), or one of them breaks the log at the block of its gate
//! (`BothBreak`). What changed leads on to that tree with what was charged (`LeadsOn`).
//!
//! The way through: `counting` counts what has to be known of the root's tree beforehand, `opening` makes a live tree of it, `trying`
//! makes one change of what is shown, `replaying` those of one epoch, `both` those of two.
//!
//! What the sources leave open is decided in `docs/DECISIONS.md`, under "The image check".
//!
//! ```text
//! let root = CheckedRoot { root: &newest.root, body, geometry };
//! let dropped = count_nameless(blocks, &root)?;
//! let tried = try_both(alloc, blocks, &root)?;
//! ```
#![tactic(auto)]

mod both;
mod counting;
mod opening;
mod replaying;
mod trying;

pub use both::try_both;
pub use counting::count_nameless;
pub use opening::live_over;
pub use replaying::Tried;
pub use trying::CheckedRoot;
