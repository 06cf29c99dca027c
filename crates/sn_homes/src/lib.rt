//! The numbers of objects, as a mount shows them.
//!
//! The system that mounts identifies an object by one number of 64 bits (`st_ino`), while an object has a number of 16 bits in one of several
//! trees: the live one, or that of a snapshot. So a number here is that in the tree, and 65,536 times the home of the tree: 0 for the live
//! tree, 1 for the directory of snapshots, which is the only one there, and from 2 on one for each snapshot, in the order in which they
//! were met.
//!
//! The model. [`Homes`] is seen as the list of places (`specs/Homes`), each with the name of its snapshot, or with none where that was deleted. A
//! place is never given again: a snapshot that is made under an earlier name has another home, so that a number of the earlier one denotes
//! nothing ([`places_stay_left`]). `number_of` and `object_at` are the two ways, and [`numbers_tell_objects`] says that they agree.
//!
//! The way through: `homes` has the places, `numbers` the two ways, and `laws` what follows.
//!
//! Memory: a name of at most 31 bytes for each snapshot that was met, which is kept until the mount ends.
//!
//! What the sources leave open is decided in `docs/DECISIONS.md`, under "Numbers of objects".
//!
//! ```text
//! let number = homes.number(&object)?;
//! let object = homes.object(number);
//! homes.forget(name);
//! ```
#![tactic(auto)]

mod homes;
mod laws;
mod numbers;

pub use homes::Homes;
pub use laws::{numbers_tell_objects, places_stay_left};
