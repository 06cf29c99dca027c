//! Changes that a journal has, laid over a tree that is read.
//!
//! A replay makes the changes of a journal one after the other, each of the tree that those before it have left. The
//! tree isn't in memory: it is a tree below, seen through an overlay of what was replayed so far, with the table of its
//! directories. Whether the next change can be applied is asked of that (`sn_applies`); if it can, its own overlay
//! (`sn_overlay_change`) is laid over the older one, and the table goes on with it.
//!
//! The model is `apply` and `charge_for` of `sn_model`, over the tree that is seen, and under the limits that a caller hands
//! in: those of the root that the journal follows, or those that calls run under.
//!
//! The way through:
//!
//! 1. `specs/Moves`: what a change does to the names of directories. `specs/Laid`: what is prepared for a change, and the
//!    result of a change that was laid over a tree.
//! 2. `moving` reads what a change does to names, and notes it in the table.
//! 3. [`prepare_change`] reads and grows all that a change asks for, and nothing that is seen changes; [`commit_change`] lays
//!    it over, takes no memory and can't fail. Between the two a caller records the change.
//! 4. [`change_charge`] reads what a change is charged. A replay asks for it; a call has it from its outcome.
//!
//! What the sources leave open is decided in `docs/DECISIONS.md`, under "What changed since a root".
//!
//! ```text
//! match prepare_change(alloc, &limits, &mut root, &overlay, &directories, &change, 0)? {
//!     Some(prepared) => commit_change(prepared, &mut overlay, &mut directories),
//!     None => return Err(Fault::CannotApply),
//! }
//! ```
#![tactic(auto)]

mod charging;
mod laying;
mod moving;
mod preparing;

pub use charging::change_charge;
pub use laying::{commit_change, prepare_change};
pub use preparing::PreparedChange;
