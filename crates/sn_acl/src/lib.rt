//! Access control lists of POSIX.1e draft 17, as acl(5) describes them: who may do what with an object, which
//! entry denies it, what a mode is in an ACL, what a new object inherits, and the short text of an ACL.
//!
//! An `Acl` is a valid list of entries in canonical order, and clauses see it as that list. A `Cred` is a user
//! with groups, and clauses see it as a `Credential`. Permissions are numbers below 8. No call takes memory.
//! The user 0 is granted everything, which is a rule of this library and not of acl(5).
//!
//! The way through begins with `check` in `access.rt`, whose clause cites `denial_of` of `specs/Access.antt`. Then `list.rt` has the
//! ACL and its mode, `inheritance.rt` the ACLs of a new object, `text.rt` the texts, and `laws.rt` what follows
//! from the definitions.
//!
//! What the sources leave open is decided in `docs/DECISIONS.md`, under "Access control lists".
//!
//! ```text
//! let acl = Acl::parse(b"u::rw-,u:1001:rw-,g::r--,m::r--,o::---")?;
//! let caller = Cred::new(1001, 100, &[]);
//! match check(&caller, 1000, 100, &acl, Permissions::WRITE) {
//!     Ok(()) => println!(rt; "granted")?,
//!     Err(entry) => println!(rt; "denied by {}", entry.tag)?, // denied by mask
//! }
//! ```
#![tactic(auto)]

mod access;
mod credential;
mod entries;
mod inheritance;
mod laws;
mod list;
mod modes;
mod rights;
mod text;

pub use access::check;
pub use credential::{Cred, MAX_GROUPS};
pub use entries::{Entry, Tag};
pub use inheritance::{Inherited, inherit};
pub use laws::{
    class_is_one, mask_narrows, mode_decides, mode_sets_three_entries, spelling_is_one,
    tags_are_distinct, test_is_exact,
};
pub use list::{Acl, MAX_ENTRIES};
pub use modes::Mode;
pub use rights::Permissions;
pub use text::MAX_TEXT;
