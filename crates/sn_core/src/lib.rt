//! The file system, for a program that calls it: format, mount, calls, consistency points, unmount, whole runs, and the check.
//!
//! The model is the machine of `sn_model`, over a [`Device`]. Nothing is defined here: each name is that of the crate where it is
//! proved, so that a program has one crate to call. `mkfs` is of `sn_mkfs`, `mount` and [`Fs`] are of `sn_fs`, [`run`] is of
//! `sn_run`, `check` of `sn_check`, what is called and answered of `sn_model`, and devices in memory of `sn_device`. A file as a
//! device is in `sn_filedev`, and lines of scripts in `sn_script`.
//!
//! The way through: [`mkfs`] makes an image, [`mount`] gives an [`Fs`], which answers calls and makes steps of a consistency point,
//! and hands the device back when it is unmounted. [`run`] does all of that for a list of events. So a disk in memory is made,
//! mounted, used and unmounted:
//!
//! ```text
//! let login = Call::Login {
//!     uid: 0,
//!     gid: 0,
//!     groups: Groups::new(alloc, &[])?,
//! };
//! let mkdir = Call::Mkdir {
//!     path: Word::new(alloc, b"/d")?,
//!     mode: 0o755,
//! };
//! let stat = Call::Stat {
//!     path: Word::new(alloc, b"/d")?,
//! };
//! let device = MemDevice::new(alloc, 8 * 256)?;
//! let Ok(device) = mkfs(alloc, device, 256) else {
//!     bail!("not formatted");
//! };
//! let Ok(mut fs) = mount(alloc, device) else {
//!     bail!("not mounted");
//! };
//! let replies = [
//!     fs.call(0, &login),
//!     fs.call(0, &mkdir),
//!     fs.call(0, &stat),
//!     fs.step(),
//! ];
//! let Ok(device) = fs.unmount() else {
//!     bail!("not unmounted");
//! };
//! ```
//!
//! Which public call has which name, where the sources have another, is decided in `docs/DECISIONS.md`, under "The surface".
#![tactic(auto)]

pub use sn_check::{Verdict, check};
pub use sn_device::{Device, Fault, Fill, MemDevice};
pub use sn_fs::{Fs, StillMounted, Unmounted, mount};
pub use sn_live_view::Known;
pub use sn_live_world::LookFault;
pub use sn_mkfs::{MkfsFault, Unformatted, mkfs};
pub use sn_model::{
    Call, Damage, End, Errno, Event, Groups, MountFault, OpenFlags, Progress, Refusal, Reply, Word,
};
pub use sn_run::{Ran, Unwatched, Watch, run};
pub use sn_walk::{Attributes, Home, Object, Path};
