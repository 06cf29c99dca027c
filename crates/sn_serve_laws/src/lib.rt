//! What the messages of a mount leave out: laws, and no code that runs.
//!
//! A SETATTR looks at its node first, and makes no call to set a mode, an owner or a group that the node has already
//! (`has_mode` and `has_owner` of `sn_serve_setattr`). The laws say that such a call would be answered, and would set what is there: so one
//! that is left out is missed by nobody, and no right is asked for less.
//!
//! The way through: `specs/Laws` has the laws, and [`serve_laws`] proves them.
#![tactic(auto)]

mod laws;

pub use laws::serve_laws;
