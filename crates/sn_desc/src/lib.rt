//! Who is logged in, and what each session has open.
//!
//! [`Sessions`] denotes the maps of the model (`in_use_of` in `specs/Sessions`): who is logged in, by
//! the number of the session, and the descriptors, by session and number. Each call is exact over these maps.
//!
//! All memory for sessions and descriptors is taken when [`Sessions`] is made, and the room for
//! an open file by `reserve`, before its `open`. So `login`, `logout`, `set_umask`, `open`, `close` and
//! `seek` take none.
//!
//! The way through: `seats` has the open files by their seats, of which each session has 64, in a slab under its keys.
//! `open_files` counts beside them how many descriptors each live file has, so that whether a file is
//! held is a look-up; and `sessions` has the calls.
//!
//! What the sources leave open is decided in `docs/DECISIONS.md`, under "Sessions and open files".
//!
//! ```text
//! let mut sessions = Sessions::new(alloc)?;
//! sessions.login(0, caller);
//! sessions.reserve()?;
//! let fd = sessions.open(0, file)?;
//! let released = sessions.close(0, fd)?;
//! ```
#![tactic(auto)]

mod holders;
mod open_file;
mod open_files;
mod seats;
mod sessions;

pub use open_file::OpenFile;
pub use sessions::{DESCRIPTORS, Released, SESSIONS, Sessions};
