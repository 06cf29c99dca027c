//! Decisions of the calls on files and descriptors, over the sessions and any view of the trees: `open`, `read` and `write` each
//! have the call of their name, `descriptors` has close, seek and ftruncate.
//!
//! The way through: `decide_` and the call's name tests session and arguments, then the descriptor, and reads over the view what its outcome
//! takes; of open the inner function makes the tests over the view. The tests that calls share are in `sn_core_decide_rules`,
//! where `specs/Decided` says what the outcome of a call is.
//!
//! What the sources leave open is decided in `docs/DECISIONS.md`, under "Decisions of calls".
//!
//! ```text
//! let outcome = decide_read(alloc, &mut view, &sessions, session, fd, count)?;
//! ```
#![tactic(auto)]

mod descriptors;
mod open;
mod read;
mod write;

pub use descriptors::{decide_close, decide_ftruncate, decide_seek};
pub use open::decide_open;
pub use read::decide_read;
pub use write::decide_write;
