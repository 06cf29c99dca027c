//! The file system over a device: mount, calls, and the device back.
//!
//! The model. A mounted file system holds a world, a position in its log, the room that is left, what the next consistency
//! point is built of, the one in progress, and a device (`Held` of `sn_held`). No tree of the world is in memory: the live one
//! is that of the root on the device, seen through what changed since (`LiveWorld` of `sn_live_world`), the frozen ones are those
//! of the root's snapshots as they are, and both are read when a call needs them. It means a state of the machine of
//! `sn_model` (`Means` of `sn_cp_progress`): one that runs over a world is based on a sound root, keeps the changes of its log,
//! which make of the root's tree one that covers the live one, whatever a crash leaves, and is ready for a point or has one
//! in progress; one that a failure has stopped knows that each crash leaves one of two worlds.
//!
//! What the clauses say, those on bytes of each device that tells them:
//! - [`Fs::call`]: from each state that is meant, the reply is that of a step of the machine, and the next state is meant. A
//!   crash at any moment of the call leaves an image of the settled world from before it or from after it, and once it is
//!   answered of the one after alone. Where its outcome lacks room in the log or on the disk, a number or an age, the
//!   point in progress is finished first (`HasFinished`), and a whole one comes where that isn't enough (`HasMadePoint`);
//!   else none. Each failure has a cause: EIO where the device failed, ENOSPC where the call doesn't fit right after that point.
//! - [`Fs::step`]: begins a point, continues it, or ends it (`LeavesStep`), which changes no world.
//! - [`Fs::find`], [`Fs::node`]: what user 0 finds in the world, by a path or as an object, beside the calls; [`Fs::left`],
//!   [`Fs::log_left`]: how much of the disk and of the log later calls can have.
//! - [`Fs::unmount`]: makes a whole one of the tree without the files that have no name, and hands the device back; or
//!   it is refused as a step is, and the file system is there still.
//! - [`mount`]: where the contents are an image of a world, that world runs; from the first sync on every
//!   crash leaves an image of it, also where the mount fails. Only a disk without a fault is mounted; a mount fails for the
//!   cause that a check reports (`IsCause` of `sn_check`).
//!
//! The way through: `sn_held` says what is meant, and of what the disk is an image, `sn_events` what each event leads to. A
//! call is decided in `reading`, by `sn_live_world`; `serving` asks whether it lacks something and does it, `changing`
//! reads and grows all that its change needs, then appends its record, and last makes it, `pointing` makes points of what
//! changed since the root, whole or in steps, by `sn_cp_whole`, and `calling` puts them together; `looking` looks at what is there; `unmounting` makes the
//! last one, and a mount is `sn_mount`'s.
//!
//! What the sources leave open is decided in `docs/DECISIONS.md`, under "Mount and calls over a device".
//!
//! ```text
//! let mut fs = mount(alloc, device)?;
//! let reply = fs.call(session, &call);
//! let device = fs.unmount()?;
//! ```
#![tactic(auto)]

mod calling;
mod changing;
mod fault;
mod fs;
mod looking;
mod mounting;
mod pointing;
mod reading;
mod serving;
mod unmounting;

pub use fault::{StillMounted, Unmounted};
pub use fs::Fs;
pub use mounting::mount;
