//! The decision of rename, over the sessions and any view of the trees.
//!
//! The way through: the inner function makes its tests over a view, for a caller who is logged in; [`decide_rename`] tests session and arguments
//! first. The tests that calls share are in `sn_core_decide_rules`, where `specs/Decided` says what the outcome of a call is.
//! It is a crate of its own since its two walks make its proof long.
//!
//! What the sources leave open is decided in `docs/DECISIONS.md`, under "Decisions of calls".
//!
//! ```text
//! let outcome = decide_rename(&mut view, &sessions, session, old, new)?;
//! ```
#![tactic(auto)]

mod rename;

pub use rename::decide_rename;
