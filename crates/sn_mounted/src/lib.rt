//! A mounted file system as a server of messages asks it: calls, looks by path and by number, and how much room is left.
//!
//! The model. [`Mounted`] is seen as what is served (`sn_serving`), and the snapshots that were met, by which objects have numbers (`sn_homes`). It
//! implements `FileSystem` (`sn_plan`): `Did` (`specs/Doing`) says that a list of acts leads from one moment to another, a call as the
//! machine answers it, a look as what user 0 finds in the world of that moment. The law [`what_is_done_is_a_run`] says that such acts are part
//! of a run, whose calls are theirs; together with the laws of `sn_serving` a mount, the acts of a server, and the unmount are a run, with all that a
//! crash leaves of it. By the law [`no_miss_is_invented`] looks fail to read only where the device fails.
//!
//! The way through: `mounted` has the mount, what a server asks, and the unmount, and `laws` the law.
//!
//! What the sources leave open is decided in `docs/DECISIONS.md`, under "A mounted file system that is served".
//!
//! ```text
//! let mut mounted = Mounted::new(alloc, device)?;
//! let number = mounted.find(b"/notes")?;
//! let reply = mounted.call(0, &call);
//! mounted.keep_pace();
//! let (end, device) = mounted.finish();
//! ```
#![tactic(auto)]

mod laws;
mod mounted;

pub use laws::{no_miss_is_invented, what_is_done_is_a_run};
pub use mounted::Mounted;
