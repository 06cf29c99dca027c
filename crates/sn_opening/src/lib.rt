//! What a disk opens to: the images of its newest root and of that root's snapshots, with the records of
//! its log on top of the live one. Definitions and laws, and no code that runs.
//!
//! The model. `sn_ondisk` says which root is the newest and which records the two log halves have,
//! `sn_record` which change a record spells, `sn_image` which tree a root denotes, and `sn_model` what
//! a change does to a tree. Here they come together:
//! - `Spelled`: changes that have records.
//! - `Worlds`: the world that a root stands for with some changes on top of it. They are made on its live
//!   tree, which is settled then; the trees of snapshots stay as they are.
//! - `Covering`: changes that make of the root's tree one that covers the live tree, which is what a mounted
//!   file system keeps of its log.
//! - `Opens`: contents open to a world where it is what their newest root stands for with the records of
//!   its epoch and, after them, those of the next one. `Shows` says the same of a root whose blocks are
//!   known from the moment when it was made: so who keeps a disk needn't read it to speak of it.
//! - `Points`: what a consistency point writes, how far it is, and what it makes of a root.
//! - `Moments`: what contents open to in the course of events. Which contents open to which world is a
//!   parameter there; in `Grounds` it is `Opens` of a disk of so many blocks.
//!
//! The way through the laws, each of them named by the contract of a function that does nothing:
//! - `opening_laws`: a disk opens to one world, which is settled, depends on the blocks that are reached,
//!   and has for each snapshot its image.
//! - `covering_laws`: with changes that cover the live tree a root stands for that tree, settled; one more
//!   change, and a file that a close drops, keep that.
//! - `log_laws`: a call that is logged, in a point or between two, leaves the world from before it or the
//!   one after it; and a half that is cleared leaves what is shown.
//! - `point_laws`: what the steps of a point leave of what the disk opens to, and what calls between them
//!   leave of the point.
//! - `step_laws`: how each step leads to the next stage, and what is in place once the last one is done.
//! - `run_laws`: over any list of events a crash leaves a state that the run was in.
//!
//! What the sources leave open is decided in `docs/DECISIONS.md`, under "What a disk opens to".
#![tactic(auto)]

mod laws;

pub use laws::{covering_laws, log_laws, opening_laws, point_laws, run_laws, step_laws};
