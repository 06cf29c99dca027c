//! Which blocks of a directory may have a name: an index in memory, so that a look-up needn't go through
//! all blocks.
//!
//! The model. `NameIndex` is a filter over the blocks of one directory, by number from 0. It knows where
//! blocks are on the device, and of some what names they may have and what room is left in them. It never
//! says that a block has a name, only that one lacks it: such a block can be passed over, and each other one
//! is read as without an index. So what isn't known costs time alone.
//!
//! What it says is true of the blocks of a disk, or isn't: `Tells sectors s index` of `specs/Index.antt`, in
//! terms of a `Store`, the bytes of each block, and the number of the device's sectors. Each call says what
//! follows where it's true, or how it stays true:
//! - `next_block` and `next_wanted`: each block passed over is there, spells names, and lacks those that are
//!   looked for (`IsSeen`).
//! - `begin`, `place_below`, `note_names` and `keep`: what becomes known from bytes is true of the
//!   blocks that have these bytes.
//! - `name_laws`: it stays true while the blocks that its pointers lead to stay. `forget` lets the others go
//!   before a block is written.
//!
//! A name is in an index as its `Print`, 50 bits of a hash. Proofs use no more of it than that a name
//! has one: names may share it, and each that does costs one block that is read in vain.
//!
//! Memory. `NameIndexes` keeps at most eight indexes, which have at most 262,144 names together; the one
//! that wasn't used for longest is dropped. A name takes 8 bytes, and a block 12. Where memory is refused an index
//! is dropped. No clause says which indexes are kept, or how much they know.
//!
//! The way through the crate:
//! - `specs/Told.antt` says what is known of blocks and when it's true, `specs/Index.antt` the same of an
//!   index, `specs/Indexes.antt` of all that are kept.
//! - `index.rt` has the type and what it answers, `begin.rt` how it begins, `learn.rt` how it learns a
//!   block's names, `share.rt` what it takes over from another one.
//! - `kept.rt` has an index with the blocks that it rests on, `indexes.rt` those that are kept.
//! - `print.rt`, `ordered.rt`, `search.rt`, `place.rt` and `rooms.rt` are what these build on.
//!
//! ```text
//! while i < count {
//!     i = indexes.next_block(tree, name, i);
//!     // Block i may have the name, or is the end.
//! }
//! ```
#![tactic(auto)]

mod begin;
mod index;
mod indexes;
mod kept;
mod laws;
mod learn;
mod ordered;
mod place;
mod print;
mod rooms;
mod search;
mod share;

pub use index::NameIndex;
pub use indexes::NameIndexes;
pub use laws::name_laws;
pub use print::Print;
