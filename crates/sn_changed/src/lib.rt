//! What changed since a root, kept beside the live tree.
//!
//! A consistency point builds the live tree from a layer over the root's tree (`sn_overlay`). The layer grows with each
//! change that is logged and each file that is dropped; and since each was charged before, the blocks that it needs fit in
//! what the root leaves free, so that no point finds the disk full.
//!
//! The way through: `specs/Changed` says when a layer is what changed, and `specs/Laws` how it grows and that it fits. [`drop_each`]
//! takes files out that went ([`DroppedFile`]), by `specs/Dropped`. `specs/Decided` says that a call which is logged leaves files
//! without names as they are.
//!
//! What the sources leave open is decided in `docs/DECISIONS.md`, under "What changed since a root".
#![tactic(auto)]

mod dropped;
mod laws;

pub use dropped::{DroppedFile, DroppedFiles, drop_each};
pub use laws::{changed_laws, decided_laws, dropped_laws};
