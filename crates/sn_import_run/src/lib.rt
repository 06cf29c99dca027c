//! Carries an import out: reads an archive, makes the calls of its entries, and reports what it doesn't make.
//!
//! The model. An import is a list of acts (`Act` of `sn_import_calls`): calls with their replies, and reports. `specs/Imports` says what is done
//! of all entries of an archive, and of the directories after them; what of one, `sn_import_files` says.
//!
//! The way through: `imports` has the loop over entries, and `rights` sets those of directories at the end.
//!
//! Memory: that of a reader of archives (`sn_untar`), a write's bytes, and for each directory its path and rights until the end.
//!
//! What the sources leave open is decided in `docs/DECISIONS.md`, under "Archives as they are made".
//!
//! ```text
//! import(alloc, &names, b"/home", &mut archive, &mut calls);
//! ```
#![tactic(auto)]

mod imports;
mod rights;

pub use imports::import;
pub use sn_import_calls::{Calls, Stop, Why};
