//! Blocks of a device: eight sectors each, lent from a cache, and written sector by sector. Beside them
//! indexes say which blocks of a directory may have a name.
//!
//! The model. `Blocks` owns a device, and its meaning is that device's: the `Disk` of `sn_device`
//! where the device tells its bytes, and its `Status` always. The cache shows in no clause on
//! bytes, since by the invariant of `Blocks` each block that is kept is what reads give. A write
//! lets the kept block go before the device is called, so this outlives a write that failed.
//!
//! What the clauses say:
//! - A block that is lent is the device's eight sectors (`block_at`), and lending it changes nothing
//!   on the device. `fetch` and `fetched` do it in two calls, and `read_block` in one. Where the
//!   device doesn't tell its bytes, a second read may give others, so a caller that rests on what it
//!   has tested calls `fetched` again, or copies.
//! - Each call that writes has one clause on bytes, a record of `specs/Effects.antt`: whatever the
//!   answer, only these sectors were touched (`Touches`), and at `Ok` reads give these bytes, and
//!   nothing is unsynced where a sync ends the call. What a crash may leave follows by the lemmas of
//!   `sn_device` on `Touches`, `Always` and `IsSynced`.
//! - Each call has one clause on counts, a record of `specs/Counts.antt`, also over a device that
//!   doesn't tell its bytes: at `Ok` so many writes and syncs, at a fault at most as many, and a cause.
//!
//! Memory is taken by `new`, for a block that isn't kept and for indexes, never for a write. At most 256
//! blocks are kept, and a full cache reads a block into the room of the one that wasn't used for longest.
//! No clause says which blocks are kept; one that is kept is fetched without memory and without the
//! device.
//!
//! The indexes of names, `NameIndexes` of `sn_names`, are kept here since they rest on bytes of the device
//! as the cache does: each write passes `write_sector`, which lets those go that may rest on its block. So
//! it is an invariant of `Blocks` that what they say is true of the blocks that reads give (`AllTell`), and
//! the calls of other layers needn't speak of them. `has_index`, `new_index` and `keep_index` begin one,
//! `note_names` adds to it the names of the block that is lent, and by `next_block` and `next_wanted` a caller
//! passes over blocks which lack what it looks for (`IsSeen`). These calls leave the device and the block
//! that is lent as they are. An index is never on the disk, and no clause says which ones are kept.
//!
//! The way through the crate:
//! - `specs/Effects.antt`, `Counts.antt` and `Lending.antt` have the words of the
//!   clauses, `specs/Cache.antt` those of the invariant.
//! - `blocks.rt` has the calls. `cache.rt` alone knows of `lru`: its contracts say what may still be
//!   kept after each of its calls, which is all that the invariant needs.
//! - `names.rt` has the calls on indexes of names.
//!
//! A caller that lends two blocks in turn:
//!
//! ```text
//! let first = blocks.read_block(first)?[0];
//! let second = blocks.read_block(second)?[0];
//! Ok(first == second)
//! ```
//!
//! What the sources leave open is decided in `DECISIONS.md` beside this folder.
#![tactic(auto)]

mod blocks;
mod cache;
mod fault;
mod names;

pub use blocks::Blocks;
pub use fault::ReadFault;
pub use sn_limits::{BLOCK_SIZE, Block};
