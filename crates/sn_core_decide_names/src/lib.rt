//! Decisions of the calls that make, remove or list names, over the sessions and any view of the trees: mkdir, rmdir, unlink,
//! link and readdir, each in the file of its name.
//!
//! The way through: each call is two functions. The inner one makes its tests over a view, for a caller who is logged in; `decide_` and the
//! call's name tests session and arguments first. The tests that calls share are in `sn_core_decide_rules`, where
//! `specs/Decided` says what the outcome of a call is.
//!
//! What the sources leave open is decided in `docs/DECISIONS.md`, under "Decisions of calls".
//!
//! ```text
//! let outcome = decide_mkdir(&mut view, &sessions, session, path, mode)?;
//! ```
#![tactic(auto)]

mod link;
mod mkdir;
mod readdir;
mod rmdir;
mod unlink;

pub use link::decide_link;
pub use mkdir::decide_mkdir;
pub use readdir::decide_readdir;
pub use rmdir::decide_rmdir;
pub use unlink::decide_unlink;
