//! What an entry of an archive makes in a directory of an image.
//!
//! The model. `specs/Entries` says with `object_of` which object of `sn_import` an entry of `sn_untar` makes, or why it makes none;
//! `specs/Acls` says which ACL a text spells where tables of accounts have the numbers of its names.
//!
//! The way through: `objects` has the entry point, `form` says what an entry makes, `paths` where, `rights` and `acls` with
//! which owner and rights, and `fault` what may be told.
//!
//! What the sources leave open is decided in `docs/DECISIONS.md`, under "Archives as they are made".
//!
//! ```text
//! match object_of(alloc, &names, b"/home", &member) {
//!     Ok(object) => make(object),
//!     Err(ObjectFault::Entry(fault)) => report(fault),
//!     ..
//! }
//! ```
#![tactic(auto)]

mod acls;
mod fault;
mod form;
mod names;
mod objects;
mod paths;
mod rights;

pub use fault::{EntryFault, ObjectFault};
pub use form::{Form, form_of, has_set_uid};
pub use names::Names;
pub use objects::object_of;
