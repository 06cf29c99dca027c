//! The messages that Linux sends to whoever serves a mount, read exactly: protocol 7.31 of FUSE, as `linux/fuse.h` lays it
//! out. Nothing here touches a device or a file system.
//!
//! A message is a head of 40 bytes and a body, all numbers unsigned and their lowest byte first. [`decode`] answers one of
//! four things for any bytes at all: [`Decoded::Short`], [`Decoded::Unknown`], [`Decoded::Misspelt`] or
//! [`Decoded::Request`], whose names and data are lent from the message. It takes no memory.
//!
//! The model. `fields_of` and `end_of` (`specs/Operation.antt`) are the table of the protocol: which numbers, names and unread
//! bytes are in the body of an operation, and what ends it. `Spells` (`specs/Body.antt`) says that bytes are such fields, where
//! those that aren't read may have any value, so an operation can have many spellings. `IsRequest` (`specs/Message.antt`) puts
//! the head before. [`requests_differ`] is the law that no bytes spell two requests.
//!
//! The way through: `message` (`Head`, `Decoded`, `decode`) asks `opcode` which operation a number is, and `body` what the body
//! says of it: the reader of each is in `fixed` (nothing but numbers, by the layouts of `numbers`), `named` (names) or `sized` (data
//! of a given size), over `name` and `forgets`. `operation` has what they answer.
//!
//! What the sources leave open is decided in `docs/DECISIONS.md`, under "The messages of a mount".
//!
//! ```text
//! match decode(&buffer[..count]) {
//!     Decoded::Request { head, op: Op::Lookup { name } } => look_up(head.node, name.as_bytes()),
//!     Decoded::Unknown { head } => refuse(head.unique, ENOSYS),
//!     ..
//! }
//! ```
#![tactic(auto)]

mod body;
mod fixed;
mod forgets;
mod message;
mod name;
mod named;
mod numbers;
mod opcode;
mod operation;
mod sized;

pub use forgets::{Forget, Forgets};
pub use message::{Decoded, HEAD_SIZE, Head, decode, requests_differ};
pub use name::{Data, Name};
pub use opcode::Opcode;
pub use operation::{NewAttributes, Op, Span, Time};
