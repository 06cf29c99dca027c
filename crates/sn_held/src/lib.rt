//! What a mounted file system holds over a root, what its disk is an image of, and the room that is left for calls.
//!
//! All but the room is definitions and laws, and no code that runs.
//!
//! The model. `sn_opening` says what contents open to, and `sn_sound` when a root is sound. Here they are combined
//! in what a mounted file system keeps from call to call:
//! - `Images`: contents are an image of a world where they are those of a formatted disk whose newest root is
//!   sound with its map, whose log is charged no more than is free, and that opens to the world. `IsImage` is
//!   what a mount asks of a disk, and what is left of it by whatever a crash leaves.
//! - `Rooms`: the model of [`Room`]: the data blocks that no durable root reaches, and since that root's moment, and since the point
//!   in progress began, the charges of the calls that were logged and the files that a close or a logout dropped. The moment of
//!   a root is the beginning of the point that made it; for a root of a format or a recovery, its end.
//! - `Room`: when what is kept of room is that of a root with its log, and what a mount keeps of an image.
//! - `Held`: the world in memory, the numbers that are kept back, where the log continues, the point in progress, and the device. `Runs`
//!   says that the disk shows a root with records that make of its tree one that covers the live one, and `RunsReady` that a
//!   point can begin of what changed since.
//! - `Events`: what a call leaves of the tree, and its append of the records.
//! - `Moments`: what contents are an image of while events continue.
//!
//! A call fits (`fits`) where the charges so far, its own, one inode's for each parked file and the reserve are no more
//! than is free, so that a consistency point never lacks a block. Parked are the live files without names, and those that were
//! dropped since the root's moment: a point takes blocks for them until they are gone from its root. `unlink` and `rmdir`, which
//! give blocks back, go without the reserve. The charge of a call is that of its change (`decided_changes_pay` of `sn_model`).
//!
//! The way through: `specs` in the order above, `room` has the count that runs, and `laws` what follows of the others.
//!
//! What the sources leave open is decided in `docs/DECISIONS.md`, under "What a disk opens to" and "Room on the disk".
//!
//! ```text
//! let mut room = Room::fresh(free);
//! if room.fits(&limits, nameless, &outcome) {
//!     room.log(outcome.charge);
//! }
//! room.begin_point();
//! room.end_point(free_behind);
//! ```
#![tactic(auto)]

mod laws;
mod room;

pub use laws::{call_laws, image_laws, room_laws};
pub use room::Room;
