//! What the decisions of calls share: the tests of a call, each once for all calls, what calls are charged, and the views over
//! which they are decided.
//!
//! A call's decision makes its tests in their order, as `sn_model` lists them, and answers the model's
//! [`Outcome`](sn_model::Outcome), its first refusal, or why there is neither ([`CallError`]): memory for its answer was
//! refused, or the view found a fault. The way through:
//!
//! 1. `view`: what a call asks of the trees; `fault`: why a look-up has no answer, or a call no outcome.
//! 2. `callers`: the test of the session; `arguments`: those of a call's arguments, which ask nothing of a tree; `rights`: those
//!    of what a path leads to, and of the rights there.
//! 3. `charges`: what calls are charged, for the log and its replay too; `outcomes`: the outcome of most calls.
//! 4. `specs/Shown`: when sessions and a view show a world; `specs/Decided`: the outcome of a call there, or why it has none;
//!    `specs/Faults`: what holds of a fault.
//!
//! What the sources leave open is decided in `docs/DECISIONS.md`, under "Decisions of calls".
//!
//! ```text
//! let caller = logged_in(&sessions, session)?;
//! let path = path_argument(&word)?;
//! let found = full(&mut view, &caller.cred, PathNumber::FIRST, &path)?;
//! ```
#![tactic(auto)]

mod arguments;
mod callers;
mod charges;
mod fault;
mod outcomes;
mod rights;
mod view;

pub use arguments::{
    acl_argument, bytes_argument, count_argument, flags_argument, id_argument, mode_bits_argument,
    new_mode_argument, path_argument,
};
pub use callers::{decided, logged_in, logged_out};
pub use charges::{
    attributes_charge, blocks_spanned, name_charge, rename_charge, restore_charge, size_charge,
    unlink_charge, write_charge,
};
pub use fault::{CallError, FileFault};
pub use outcomes::{asks, does, points};
pub use rights::{
    empty, forbidden, full, given_in, granted, is_listable, live, live_if, no_directory,
    not_present, one_tree, parent_of, prefix, sticky, there, writable_parent,
};
pub use view::{CallView, FileView, MoveView};
