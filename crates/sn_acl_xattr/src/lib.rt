//! ACLs as the values of the extended attributes `system.posix_acl_access` and `system.posix_acl_default`, both ways.
//!
//! | offset | field, its lowest byte first |
//! |---|---|
//! | 0 | version u32: 2 |
//! | 4 | the entries, 8 bytes each, up to the value's end |
//!
//! | offset | field of an entry |
//! |---|---|
//! | 0 | tag u16: 1 USER_OBJ, 2 USER, 4 GROUP_OBJ, 8 GROUP, 16 MASK, 32 OTHER |
//! | 2 | permissions u16: read 4, write 2, execute 1 |
//! | 4 | user or group number u32; where the tag has none, 0xffffffff is written, and it isn't read |
//!
//! (Linux, `include/uapi/linux/posix_acl_xattr.h`.) Linux hands a server of a mount what a program wrote, so a value that is
//! read may have its entries in any order. It is an ACL where it has the entries of a valid one, each once. A value that is
//! written has them in canonical order. No call takes memory.
//!
//! The way through: `specs/Values.antt` has the values of an ACL, `entries` and `order` read and sort entries, `value` has the
//! two functions, and `laws` what follows.
//!
//! What the sources leave open is decided in `docs/DECISIONS.md`, under "Names and attributes of a mount".
//!
//! ```text
//! let acl = decode(value).ok_or(Errno::Invalid)?;
//! let value = encode(&acl);
//! ```
#![tactic(auto)]

mod entries;
mod laws;
mod order;
mod value;

pub use laws::{values_are_of_one_acl, written_values_are_read};
pub use value::{LONGEST_VALUE, decode, encode};
