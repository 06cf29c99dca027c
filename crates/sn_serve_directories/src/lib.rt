//! The messages of a mount on open directories: OPENDIR, READDIR and RELEASEDIR.
//!
//! The model. Each message has a plan (`specs/Messages`), and the function that answers it does what the plan asks for. What is held for an open
//! directory is not the server's, but that of `sn_listings`, which each function is given besides: its contract says what becomes of it.
//!
//! A listing is read as a whole (`specs/Entries`): `.` and `..`, and then each name of the directory, with the number and the kind of what has it.
//! A plan has the names of the image; what is held, and answered, are the names of the mount that these denote.
//!
//! The way through: `opening` has OPENDIR and RELEASEDIR, `entry` one entry, `dots` the first two, `entries` all of them, and `reading` READDIR.
//!
//! What the sources leave open is decided in `docs/DECISIONS.md`, under "Messages on directories".
//!
//! ```text
//! let opened = opendir(&mut server, &mut listings, &asker, node)?;
//! readdir(&mut server, &mut listings, opened.handle, 0, &mut answer)?;
//! releasedir(&mut server, &mut listings, opened.handle)?;
//! ```
#![tactic(auto)]

mod dots;
mod entries;
mod entry;
mod opening;
mod reading;

pub use opening::{opendir, releasedir};
pub use reading::readdir;
