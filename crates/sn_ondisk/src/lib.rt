//! What the contents of a disk mean, for every layer between the device and the trees
//! of the file system: definitions and laws, and no code that runs.
//!
//! The model. `Contents` are the sectors of a disk, as reads give them or as a crash may leave them.
//! What can be read of any bytes is a function of the contents; a value that has one spelling is a
//! relation, with the value on its right:
//! - `Blocks`: the bytes of sectors and of blocks, which are eight sectors.
//! - `Gates`: a sector whose first byte alone is read. It is open if that byte is 1.
//! - `Roots`: `HasRoot`, the root body that a slot's block spells, and `IsNewest`, the root that
//!   counts.
//! - `LogHalf`: `HasRecord`, a record after the gate of a place; `Leads`, the open records from a
//!   place on; `Stops`, where replay of an epoch ends; `Replays`, what it finds; `IsReady`, what an
//!   append needs; `HasPending`, a record whose own gate alone is still to be opened.
//! - `Shown`: the newest root with the records that belong on top of it.
//! - `Trees`: the bytes of a block tree and the blocks that it reaches, with repeats. One recursion
//!   goes down the levels, and their number comes from the size.
//! - `Counts`: how often a block occurs in a list of pointers.
//! - `MapCopy`: the words of a slot's copy of the block map.
//!
//! The way through the laws, each of them named by the contract of a function that does nothing:
//! - `block_laws`: bytes of sectors and blocks follow one another, and a block on the disk is whole.
//! - `place_laws`: where roots, map copies and log halves lie, and that they are apart.
//! - `footprints`, `tree_laws` and `map_laws`: on which sectors each reading depends. With the lemmas
//!   of `sn_device` a fact of some sectors passes every write elsewhere.
//! - `count_laws`: how often pointers lead to a block adds up along lists and down a level, so that
//!   whatever goes through a tree piece by piece counts what the tree reaches.
//! - `log_gate_laws`, `root_gate_laws` and `shown_laws`: what one gate's write does. They speak of two
//!   contents that agree outside its sector, so they hold of the write that was done and of each one
//!   that a crash tore.
//! - `log_is_one` and `root_is_one`: each reading has one answer.
//!
//! What the sources leave open is decided in `docs/DECISIONS.md`, under "What a disk means".
//!
//! ```text
//! -- with any bytes in the gate of a record that is written but doesn't count,
//! -- the record is there as a whole or not at all
//! GateAddsOneOrNone = (c d : Contents) (base epoch place : ℕ) (payloads : List (List ℕ))
//!     (payload : List ℕ) → HasPending c base epoch payloads place payload
//!     → AgreesOutside (Single (base + place)) c d
//!     → IsReady d base epoch payloads place
//!     ⊎ IsReady d base epoch (payloads ++ payload ∷ []) (place_after place payload)
//! ```
#![tactic(auto)]

mod laws;

pub use laws::{
    block_laws, count_laws, footprints, log_gate_laws, log_is_one, map_laws, place_laws,
    root_gate_laws, root_is_one, tree_laws,
};
