//! The messages of a mount that ask what a node is like, and set its ACLs: GETATTR, GETXATTR, LISTXATTR, SETXATTR and REMOVEXATTR; and those
//! that need no node or forget it: STATFS, INIT, FORGET and BATCH_FORGET.
//!
//! The model. Each message has a plan (`specs/Messages`), and the function that answers it does what the plan asks for. What is told of a node
//! comes from one of three looks (`specs/Telling`): who asks is told of its path; user 0 is, where somebody has the node open, since who
//! opened it could look at it; and a node to which no name leads is looked at by its number.
//!
//! The extended attributes of a node are its two ACLs, where they say more than its mode (`specs/Xattrs`, `specs/Acls`). `specs/Room` says what is
//! told of the room, and which version and which offers of the system a server takes.
//!
//! The way through: `telling` has the looks and `attributes` GETATTR; `values` the names and values of attributes, `acls` the ACLs of a node,
//! `listing` which of them have a value, `reading` and `setting` the messages on them; `room` STATFS, `beginning` INIT, and `forgetting` the last
//! two.
//!
//! What the sources leave open is decided in `docs/DECISIONS.md`, under "Messages on attributes".
//!
//! ```text
//! let attributes = getattr(&mut server, &asker, node)?;
//! let xattr = getxattr(&mut server, &asker, node, b"system.posix_acl_access", size)?;
//! ```
#![tactic(auto)]

mod acls;
mod attributes;
mod beginning;
mod forgetting;
mod listing;
mod reading;
mod room;
mod setting;
mod telling;
mod values;

pub use attributes::getattr;
pub use beginning::init;
pub use forgetting::{batch_forget, forget};
pub use reading::{getxattr, listxattr};
pub use room::statfs;
pub use setting::{removexattr, setxattr};
pub use values::{Xattr, XattrBytes};
