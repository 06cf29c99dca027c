//! ACLs as archives have them: the long text of acl(5), "LONG TEXT FORM", as GNU tar and bsdtar write it in the pax records
//! `SCHILY.acl.access` and `SCHILY.acl.default`.
//!
//! An ACL is written as `user::rw-,user:1001:rw-,group::r--,mask::rw-,other::r--`, with numbers. Entries are read in the long or the
//! short form, with commas or line ends between them, each with a comment after it or without one, and with the number of a user or
//! a group in a fourth field, as bsdtar writes it. A name without its number is given back, to be looked up by the caller.
//!
//! The model. `long_text` is what is written for an ACL. `said` is what a text says: the list of its entries, or none where the
//! text is damaged. The law: a text that was written says the entries of its ACL.
//!
//! The way through: `entries` has the types, `fields` reads one entry, `reading` all of them, `writing` writes an ACL, and `laws`
//! has what follows.
//!
//! What the sources leave open is decided in `docs/DECISIONS.md`, under "Texts of ACLs in archives".
//!
//! ```text
//! let text = print_long(&acl);
//! let entries = parse_entries(text.as_str().as_bytes()).ok_or(Damaged)?;
//! ```
#![tactic(auto)]

mod entries;
mod fields;
mod laws;
mod reading;
mod writing;

pub use entries::{Name, Qualifier, TextEntry, Whom};
pub use laws::written_texts_are_read;
pub use reading::parse_entries;
pub use writing::{MAX_LONG_TEXT, print_long};
