//! What the system is answered by whoever serves a mount, written exactly: protocol 7.31 of FUSE, as `linux/fuse.h` lays it
//! out. Nothing here touches a device or a file system.
//!
//! An answer is a head of 16 bytes (its length, the error negated, the `unique` number of the message that it answers) and a
//! body, all numbers unsigned and their lowest byte first. [`encode`] appends the one spelling of an [`Answer`] to a buffer that
//! its caller keeps, so that after the first answers it takes no memory. A [`Listing`] is filled entry by entry, and says
//! when one more doesn't fit.
//!
//! The model. `reply_bytes` (`specs/Answer.antt`) is the spelling: the head, `fixed_bytes`, and what is read or listed.
//! `listed_bytes` (`specs/Listing.antt`) is that of an entry of a listing, which is seen as its bytes and the room for them.
//! [`replies_differ`] is the law that answers of one kind that are spelled alike are one, to one message.
//!
//! The way through: `answer` and `errno` (what can be answered), `reply` (`encode`) over `numbers` (the numbers of each answer),
//! and `listing`.
//!
//! What the sources leave open is decided in `docs/DECISIONS.md`, under "The messages of a mount".
//!
//! ```text
//! buffer.clear();
//! encode(&mut buffer, head.unique, &Answer::Error { errno: Errno::ENOSYS })?;
//! device.write(&buffer)?;
//! ```
#![tactic(auto)]

mod answer;
mod errno;
mod listing;
mod numbers;
mod reply;

pub use answer::{Answer, Attributes, Entry, Initialized, Opened, Statistics};
pub use errno::Errno;
pub use listing::{DirectoryEntry, EntryKind, Listed, Listing, NAME_MAX};
pub use reply::{encode, replies_differ};
