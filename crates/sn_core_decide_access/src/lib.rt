//! Decisions of the calls that ask for the attributes and rights of an object, or set them, over the sessions and any view of the
//! trees: stat, access and getacl in `asking`, chmod, chown and setacl in `setting`.
//!
//! The way through: each call is two functions. The inner one makes its tests over a view, for a caller who is logged in; `decide_` and the
//! call's name tests session and arguments first. `rights` has the tests that no other call has; those that calls share are in
//! `sn_core_decide_rules`, where `specs/Decided` says what the outcome of a call is.
//!
//! What the sources leave open is decided in `docs/DECISIONS.md`, under "Decisions of calls".
//!
//! ```text
//! let outcome = decide_chmod(&mut view, &sessions, session, path, mode)?;
//! ```
#![tactic(auto)]

mod asking;
mod rights;
mod setting;

pub use asking::{decide_access, decide_getacl, decide_stat};
pub use setting::{decide_chmod, decide_chown, decide_setacl};
