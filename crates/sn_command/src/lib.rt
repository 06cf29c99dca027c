//! The command line of snapfs: which words ask for what.
//!
//! [`parse`] takes the words without the program's own name and answers a [`Task`], which borrows them, or a
//! [`WordsFault`]. The words are `clap`'s to read, and `specs/Tasks` says which of them ask for which task: a task comes
//! only of those, and those are refused only where memory is. No word is empty or begins with a dash.
//!
//! The way through: `commands` has the commands as `clap` knows them, which `specs/Commands` writes out, `task` makes a task of the
//! words that were found under their names, and `command` has [`parse`].
//!
//! What the sources leave open is decided in `docs/DECISIONS.md`, under "Scripts and the program".
//!
//! ```text
//! match parse(alloc, &["mkfs", "disk.img", "256"])? {
//!     Task::Mkfs { image, blocks } => ..
//! ```
#![tactic(auto)]

mod command;
mod commands;
mod fault;
mod task;

pub use command::{Checker, Task, parse};
pub use fault::WordsFault;
