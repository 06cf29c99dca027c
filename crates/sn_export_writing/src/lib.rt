//! Writes what lies at a path as members of a tar stream, and the end of the stream.
//!
//! The model. A stream is a list of members (`IsStream` of `specs/Streams`), each with exactly the records and the head of what is told of it,
//! as much content as its head says, filled up to a block, no default ACL but on a directory, and hard links only to files before them. What
//! writes one says which member it is, or after an error that the front of one is written (`specs/Writing`). Where calls are those of a
//! machine over a world, the member is the one that an archive has of the place that is visited (`specs/Visits`).
//!
//! The way through: [`put_directory`] and [`put_name`] write what lies at a path, by `visits`, which keeps in [`Written`] what was met;
//! `content` has the bytes of a file, and `output` counts what is written and has [`put_end`].
//!
//! ```text
//! let was_met = meet(written.met.as_mut_slice(), status.number)?;
//! put_name(alloc, &mut server, b"/notes", b"./notes", &status, &acls, was_met, &mut out, &mut written)?;
//! put_end(&mut out, written.past)?;
//! ```
#![tactic(auto)]

mod content;
mod output;
mod visits;

pub use output::put_end;
pub use visits::{FirstName, Written, meet, put_directory, put_name};
