//! Events over a device: a mount, the events one after the other, and an unmount.
//!
//! The model. A [`Server`] is a mounted file system, or a device whose last mount failed; what it holds and the
//! state of the machine that it means are those of `sn_fs` (`standing` in `specs/Servers.antt`). A run goes
//! from one such standing to the next (`Goes` in `specs/Runs.antt`).
//!
//! What the clauses say, of each device that tells its bytes:
//! - [`Server::call`], `step` and `restart`: the reply is that of a step of the machine. A crash at any moment of the event
//!   leaves the settled world from before it or from after it, and once it is answered the one after alone.
//!   No count of the device falls, and a failure is reported only where the device failed.
//! - [`run`]: the replies and the end are those of a whole run of the machine from the world that the disk
//!   is an image of. A crash during an event leaves what the machine's run leaves that is cut short in that event or after
//!   it, and after the last event all that was answered (`LeavesItsRun`). A disk without a root is reported by its fault.
//!   Over any device each event has its reply, unless there was no mount; and a [`Watch`]
//!   learns how far the run has come.
//! - [`no_failure_is_invented`]: where the device didn't fail, no event was refused for a failure.
//! - [`only_its_end_fails`]: where the device's count of failures stayed, each failure was the device's end: a
//!   device whose type keeps that count at 0 fails in no other way.
//! - [`sync_laws`]: after a `sync` that is answered the newest root has all of the world.
//! - [`call_laws`]: a call that needs no point makes at most 131 writes and two syncs. One that fits on the root that counts
//!   fits on that of a point in progress too.
//! - [`step_laws`]: a step makes at most eight writes and a sync, and a point has so many steps at most.
//! - [`crash_laws`]: the same over lives, each of which begins from what a crash in the one before has left.
//!
//! The way through: `specs/Servers` and `specs/Runs`, then `running`, which has [`run`], over `server`, which serves one
//! event; `watch` has who is told of each, and `laws` what follows.
//!
//! What the sources leave open is decided in `docs/DECISIONS.md`, under "Mount and calls over a device".
//!
//! ```text
//! let Ran { replies, end, device } = run(alloc, device, &events, &mut Unwatched);
//! ```
#![tactic(auto)]

mod laws;
mod running;
mod server;
mod watch;

pub use laws::{
    call_laws, crash_laws, no_failure_is_invented, only_its_end_fails, step_laws, sync_laws,
};
pub use running::{Ran, run};
pub use server::Server;
pub use watch::{Unwatched, Watch};
