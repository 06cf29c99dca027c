//! Checking all roots of a disk, the live one and those of its snapshots, and the copy of the block map that
//! says what they reach.
//!
//! The model is that of `sn_sound`: `IsSoundRoot` says when all roots are sound and the words of the map say
//! what they reach, and `Stands` which fault is at which block. Faults come in groups: pointers and
//! spelling, the map, names and links. A group is looked at in all roots before the next one begins, so a
//! fault that is reported is one of the first group that has one (`IsFirstOf`). Over a device that tells its bytes
//! the answer is exact.
//!
//! Whoever goes through the roots sets in a `Map` the bit of each root for each block that it reaches. `AreSets` says what that
//! results in: the word of each block is the set of the roots that were gone through and reach it. It begins with zeros, and grows by
//! each root whose bit no other has ([`set_laws`]). A copy of the map agrees with the roots (`TellsRoots` of `sn_sound`) exactly where
//! each of its words is that of the marks, those past the last block of the disk too, which are 0.
//!
//! The way through: `rooted` lists the roots with their bits, and says which earlier one has the same inode
//! file; `marking` checks each but for its links (`sn_check_root`), which leaves its marks in one map;
//! `words` compares that with the copy on the disk, block after block, and reports the first word that is another
//! ([`check_map`]); `linking` counts the names of each root (`sn_census`). A root whose inode file an earlier one has is read by neither: its marks are copied, and its
//! links are those of that one. `checking` puts them together.
//!
//! What the sources leave open is decided in `docs/DECISIONS.md`, under "The image check".
//!
//! ```text
//! let newest = newest(&mut blocks)?;
//! let map = check_roots(alloc, &mut blocks, geometry, newest.slot, &newest.root)?;
//! ```
#![tactic(auto)]

mod checking;
mod laws;
mod linking;
mod marking;
mod rooted;
mod words;

pub use checking::check_roots;
pub use laws::set_laws;
pub use words::check_map;
