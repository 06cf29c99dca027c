//! The calls of an import, and its reports: makes those of an object one after the other, up to one that stops it.
//!
//! The model. What an import does is a list of acts (`Act`): calls with their replies, and reports. What answers the calls (`Calls`) has a
//! predicate of such lists, which says of one whether it is what was done from some moment on. `specs/Answers` says what a reply lets an
//! entry do, `specs/Carried` when the calls of a list were made, or a front of them up to one that stops an entry, and `specs/Stops` what ends with
//! an entry that is stopped.
//!
//! The way through: `making` has the calls of an object, those that open it (`open`) and those after its content (`close`), and makes a single
//! one (`make`). `answers` says what a reply lets an entry do, `stop` why an entry isn't made to its end, `why` what is reported, and `text` has
//! the words of reports.
//!
//! `sn_import_files` makes files with their content, and `sn_import_run` whole archives. What the sources leave open is decided in
//! `docs/DECISIONS.md`, under "Archives as they are made".
//!
//! ```text
//! let fd = open(alloc, &mut calls, &object)?;
//! make(&mut calls, &object.what, call)?;
//! close(alloc, &mut calls, &object, Closing::Close(fd))?;
//! ```
#![tactic(auto)]

mod answers;
mod calls;
mod making;
mod stop;
mod text;
mod why;

pub use calls::Calls;
pub use making::{close, make, open};
pub use stop::Stop;
pub use why::Why;
