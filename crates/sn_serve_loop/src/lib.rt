//! Messages of a mount, answered one after the other until their input ends.
//!
//! The model. `Conversation` (`specs/Conversations`) says which messages the bytes of an input are, what each was answered, and which calls and looks were made for
//! them. Between two messages the file system does the work that is due (`FileSystem::keep_pace`), so that nobody waits for it.
//! `LogsInAndConverses` has the logins of user 0 before: the sessions in which files are opened are theirs.
//!
//! The way through: `frames` cuts messages out of what is read, `sessions` logs user 0 in, `conversation` answers one message after the other, `connection`
//! is what that needs, and `stop` says why it ended.
//!
//! What the sources leave open is decided in `docs/DECISIONS.md`, under "Messages, one after the other".
//!
//! ```text
//! let mut connection = NewConnection::new(alloc)?.of(alloc, file_system, checker, times);
//! let stop = converse(&mut connection, &mut host, &mut input, &mut output);
//! let (file_system, times) = connection.into_parts();
//! ```
#![tactic(auto)]

mod connection;
mod conversation;
mod frames;
mod sessions;
mod stop;

pub use connection::{Connection, NewConnection};
pub use conversation::converse;
pub use frames::{Frames, Front};
pub use stop::Stop;
