//! What a person sees of a command that takes long.
//!
//! [`Progress`] shows once a second how far a run or a check is. A run tells it itself (`Watch` of `sn_core`); a check is watched by the reads of
//! its device: [`WatchedDevice`] is a device around another, which counts reads and is otherwise that one, bytes and crashes included.
//!
//! The way through: `watched` has the device, and `progress` what is shown.
//!
//! ```text
//! let mut progress = Progress::new(&rt, &mut person);
//! let verdict = check(alloc, WatchedDevice::new(device, &mut progress));
//! progress.end();
//! ```
#![tactic(auto)]

mod progress;
mod watched;

pub use progress::Progress;
pub use watched::{WatchReads, WatchedDevice};
