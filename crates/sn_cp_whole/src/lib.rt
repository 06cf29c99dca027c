//! A whole consistency point of a live tree, from what changed since its root to the next root that counts.
//!
//! The model. `sn_held` says when a mounted file system is ready for a point (`RunsReady`), `sn_cp_held` what a point of its
//! live tree is, and `sn_cp_progress` when it runs on with one in progress (`RunsOn`), and what the steps of one leave. A
//! [`PointBase`] is what is kept for that besides log and room: the root that counts, and its map. What changed since is
//! an overlay beside it. [`begin_point`] builds the live tree of both in memory and begins the point: a [`GoingPoint`],
//! with the overlay of what changes from then on. [`GoingPoint::advance`] makes a step of it, and [`GoingPoint::finish`]
//! all that are left. [`make_point`] does both in a row; then the base is that of the next root, nothing is charged, and
//! the log continues empty.
//!
//! [`make_restore`] does the same to bring a snapshot back: it builds over the snapshot's inode file an overlay that drops its
//! files without names, and the live tree is then what is seen through it. What changed since the root goes with the root.
//!
//! A point makes of the snapshots what is asked for: nothing; one more, the live tree as it is, with the least free bit of
//! the map's words; or one less, whose bit is cleared. This asks that a new name is free with room for one more snapshot,
//! and that the one that goes is there (`CanBeAsked`). One that is brought back stays; it has to be there, and a charge for
//! each of its files without names has to be free (`CanBeRestored`).
//!
//! What its clauses say, those on bytes of each device that tells them:
//! - Whatever the answer, a crash at any moment leaves an image of the settled world, or once the next root counts of that
//!   with the snapshots that were asked for. At `Ok` the mount runs on over the next root, with these, and is ready for
//!   another point.
//! - All that may be refused comes before the first write: memory, a read that fails, an age that none follows. Then
//!   nothing has changed. After a failure of the device while it writes nothing may be written before the next mount.
//! - The superblock, the root that counted and its map are never written.
//!
//! [`make_recovery`] does the same before a mount runs, of what it replayed and dropped: the next root's epoch is after both
//! that were replayed, so no clearing begins it, and the log and the snapshots are left alone. The root before it may be of
//! any version that is read: what is built over it goes by its limits, and the next root has the written ones.
//!
//! The way through: `base` has what is kept; `asking` what becomes of the snapshots; `planning` what is built, with the
//! root that follows; `going` the beginning and the end of a point of a mount, `making` a whole one, and `recovering` the
//! one before it runs. `specs/Asking.antt`, `Planning.antt`, `Going.antt`, `Making.antt` and `Recovering.antt` say what they
//! make.
//!
//! What the sources leave open is decided in `docs/DECISIONS.md`, under "Steps of a consistency point".
//!
//! ```text
//! let since = make_point(alloc, &mut blocks, &mut base, &changed, &mut log, &mut room, drops, &asked)?;
//! ```
#![tactic(auto)]

mod asking;
mod base;
mod fault;
mod going;
mod making;
mod planning;
mod recovering;

pub use base::PointBase;
pub use fault::PointFault;
pub use going::{Begun, GoingPoint, begin_point};
pub use making::{make_point, make_restore};
pub use planning::empty_overlay;
pub use recovering::make_recovery;
