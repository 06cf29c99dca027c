//! The outcome of a call, with the number of a new node.
use sn_model::{Caller, Change};

/// The outcome of a call, with the number of a new node.
#[derive(Drop)]
pub struct Chosen<'a> {
    /// The change that is to be made, if one is.
    pub change: Option<Change<'a>>,
    /// What becomes of the caller once the change is made.
    pub caller: Caller,
    /// The number that the change takes a name of, if it takes one: its file may have no other.
    pub lost: Option<u16>,
}
