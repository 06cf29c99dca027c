//! The messages of a mount that are about files: OPEN, CREATE, MKNOD, READ, WRITE and RELEASE. And the size of a file, which
//! a SETATTR sets (`sn_serve_setattr`).
//!
//! The model. Each message has a plan (`specs/Messages`), of the parts that `sn_plan` and `sn_serve_names` have, and the function that answers it
//! does what the plan asks for. `specs/Flags` says what the flags of a message ask for, and `specs/Replies` what replies give.
//!
//! Two open a file. Who asks opens it first, in a session that ends with the message: that decides about rights, and truncates or makes the
//! file. Then user 0 opens it, in the session of a handle, and READ and WRITE go through that descriptor: what it may do was asked of who
//! opened it, and no right is asked again. RELEASE closes it.
//!
//! No descriptor is left open that no handle has: the logout of who asks closes theirs, and user 0 opens nothing before a handle is vacant.
//!
//! The way through: `flags` and `replies` have the small words, `opening` OPEN, `creating` CREATE and MKNOD, `content` READ, WRITE and
//! RELEASE, and `sizing` the size of a file.
//!
//! What the sources leave open is decided in `docs/DECISIONS.md`, under "Messages on files".
//!
//! ```text
//! let opened = open(&mut server, &asker, node, flags)?;
//! let bytes = read(&mut server, opened.handle, 0, 4096)?;
//! release(&mut server, opened.handle)?;
//! ```
#![tactic(auto)]

mod content;
mod creating;
mod flags;
mod opening;
mod replies;
mod sizing;

pub use content::{read, release, write};
pub use creating::{Created, create, mknod};
pub use opening::open;
pub use sizing::{size_at, size_of_open};
