//! What becomes of whoever makes a call: its session and its descriptors, and which files and numbers go with it.
//!
//! The model is that of `sn_model`: a call has an outcome, which says what is to be changed of the live tree and what
//! becomes of the caller. [`turn`] sets the latter, over the sessions of `sn_desc`, and returns the live files that no
//! descriptor has any more. The rest are definitions and laws, for any tree: `specs/Choosing` fills in a new node's number,
//! `specs/Called` says what has to be so before a caller turns, `specs/Told` which files without names go with it, and
//! `specs/Numbering` which number a new node gets from one event to the next, and which are kept back.
//!
//! The way through: `turning` has [`turn`], and `chosen` a change with its number. `sn_live_world` does this over a tree that
//! is read, and `sn_plain_world` over one in memory, which tests compare with.
#![tactic(auto)]

mod chosen;
mod turning;

pub use chosen::Chosen;
pub use turning::turn;
