//! The live tree of a root on a device with who is logged in: the outcome of a call, the change that it makes, and what
//! becomes of its session.
//!
//! The live tree is read on demand. It is the tree of a root on disk, seen through what changed since (`sn_live`), and
//! nobody holds it in memory. Beside it are the sessions of `sn_desc`. The model is the world of `sn_model` that is shown
//! of a tree below. A call is decided in the world that has the frozen trees of the root's snapshots too, which are read
//! on demand as well; of changes and callers it is said over the live tree alone, since they change nothing else.
//!
//! A call is served in parts, and whoever serves it may record the change in between:
//!
//! 1. [`LiveWorld::decide`] finds the outcome of the call, in the live tree and the frozen ones. A call that needs no
//!    look-up is decided without the root.
//! 2. [`LiveWorld::prepare_caller`] makes room for the file that it opens, [`LiveWorld::choose`] fills in the number of a
//!    new node, and [`LiveWorld::prepare_change`] reads and grows what the change asks for. Nothing changes by these.
//! 3. [`LiveWorld::commit`] makes the change, and [`LiveWorld::set_caller`] sets what becomes of the caller, and removes the
//!    files that have no name and nobody has open any more. Both take no memory and can't fail.
//!
//! A snapshot is brought back in two parts: [`prepare_restore`] reads and grows a live tree of the snapshot's tree, without its
//! files without names, and [`LiveWorld::restore`] puts it in the live tree's place once a consistency point has made it a
//! root. The second takes no memory and can't fail.
//!
//! [`LiveWorld::look_up`] finds what user 0 finds, beside the calls.
//!
//! The way through: `specs/World` says which world is shown, `specs/Faults` what a fault does to the device, `specs/Turned` what
//! a caller leaves, and `specs/Restored` what a snapshot is brought back as. `world` has the state, and `pointing`
//! consistency points that begin and end; `deciding`, `choosing`, `changing` and `calling` have the parts of a call.
//! `opening` makes the live tree of a root, `restoring` brings a snapshot back, and `looking` looks at what is there.
//!
//! What the sources leave open is decided in `docs/DECISIONS.md`, under "Reading a root on demand".
//!
//! ```text
//! let outcome = world.decide(alloc, &mut blocks, &root, session, &call)?;
//! world.prepare_caller(&outcome.caller)?;
//! ```
#![tactic(auto)]

mod calling;
mod changing;
mod choosing;
mod deciding;
mod fault;
mod looking;
mod opening;
mod pointing;
mod restoring;
mod world;

pub use choosing::Picked;
pub use fault::{CallFault, LookFault};
pub use opening::live_tree_of;
pub use restoring::{RestoredTree, prepare_restore};
pub use world::LiveWorld;
