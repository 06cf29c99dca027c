//! What a tar stream has, as calls that make it below a directory of an image.
//!
//! The model. An `Object` is what an entry of an archive becomes. `specs/Calls.antt` says with which calls, in their order:
//! `opening_calls` those before its content, and `closing_calls` those after it, which for a directory come after all entries.
//! `sn_import_run` carries them out. `is_expected` says which refusals belong to a plan, as where a directory is there already,
//! and `ends` which end an import.
//!
//! A file is made with the mode 0600, and gets its ACL after its content; a directory is made with 0700, and gets its mode and its
//! ACLs after all entries.
//!
//! The way through: `object` has the types, `paths` the directories above, `calls` single calls, `opening` and `closing` give the next
//! call of a plan, and `refusals` says what a refused call leads to.
//!
//! What the sources leave open is decided in `docs/DECISIONS.md`, under "Archives as they are made".
//!
//! ```text
//! let mut place = object.opening();
//! while let Some((call, next)) = object.opening_call(alloc, place)? {
//!     fs.call(session, &call);
//!     place = next;
//! }
//! ```
#![tactic(auto)]

mod calls;
mod closing;
mod content;
mod directories;
mod object;
mod opening;
mod paths;
mod refusals;

pub use closing::Closing;
pub use content::{Content, WRITE_SIZE};
pub use directories::order;
pub use object::{Object, Rights, What};
pub use opening::Opening;
pub use refusals::{ends, is_expected};
