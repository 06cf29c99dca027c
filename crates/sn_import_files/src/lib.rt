//! Makes one entry of an archive: reads its blocks, and makes the calls of its object, with the content of a file between them.
//!
//! The model. `specs/Streams` says which entries the blocks of an archive have (`Part`), with as much of their content as came, and why no further
//! block is read; `specs/Files` where content is next, what comes of it, and what its writes are; `specs/Entries` what is done of an entry
//! (`IsDone`), as a list of acts (`sn_import_calls`).
//!
//! The way through: `blocks` reads blocks, `files` has the content of a file, and `entries` makes an entry.
//!
//! `sn_import_run` makes the entries of a whole archive. What the sources leave open is decided in `docs/DECISIONS.md`, under "Archives as
//! they are made".
//!
//! ```text
//! let told = next_told(alloc, &mut archive, &mut untar, &mut block)?;
//! if let Told::Entry(member) = &told {
//!     make_entry(alloc, &mut archive, &mut untar, &mut calls, &names, b"/home", place, member, &mut directories)?;
//! }
//! ```
#![tactic(auto)]

mod blocks;
mod entries;
mod files;

pub use blocks::next_told;
pub use entries::{make_entry, report};
