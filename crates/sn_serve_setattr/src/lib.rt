//! The message of a mount that sets attributes: SETATTR.
//!
//! The model. The message has a plan (`specs/Messages`), of the parts that `sn_plan`, `sn_serve_names` and `sn_serve_files` have, and
//! [`set_attributes`] does what the plan asks for. `specs/Flags` says what a message sets, and what of it is so already.
//!
//! Size, owner and mode are set by calls as who asks. Times aren't part of a call: here the right to set them is asked for, and
//! whoever keeps them sets them, by what [`sets_accessed`], [`names_accessed`] and the like say of a message.
//!
//! The way through: `dating` has who may set times, `already` what a node is like before, and `setting` the message.
//!
//! What the sources leave open is decided in `docs/DECISIONS.md`, under "Messages that set attributes".
//!
//! ```text
//! let there = getattr(&mut server, &asker, node)?;
//! set_attributes(&mut server, &asker, user, node, &there, &new)?;
//! ```
#![tactic(auto)]

mod already;
mod dating;
mod setting;

pub use dating::{names_accessed, names_modified, sets_accessed, sets_modified, sets_times};
pub use setting::set_attributes;
