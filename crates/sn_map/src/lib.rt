//! The block map: for each block, which roots reach it.
//!
//! A block is free where no root reaches it, and only a free block may be written, so that what an
//! older root reaches stays as it is (Hitz, Lau and Malcolm, "File System Design for an NFS File
//! Server Appliance", 1994). A snapshot costs one pass over the map: its bit becomes a copy of the
//! live bit.
//!
//! A `Map` is seen as the list of its words, one for each block. Each pass over the words has as its
//! contract the list function that it computes: `count_free` counts the words that are 0, `next_free`
//! is the first index of such a word, and `copy_bit` with its two cases for the live bit, and `clear_bit`, map one bit
//! of each word. `specs/Free.antt` says what is free, and `specs/Bits.antt` what becomes of a bit.
//! The way through: `block_map` has the type, `lanes` the passes, a vector of words at a time, and `plain` the same
//! passes a word at a time, to which `lanes` leaves the last words.
//!
//! What the sources leave open is decided in `docs/DECISIONS.md`, under "The block map and the allocator".
//!
//! ```text
//! let mut map = Map::new(alloc, 256)?;
//! map.set_word(0, 1);
//! map.copy_bit0_to(3);
//! map.set_word(0, map.word(0) & !1);
//! assert_eq!(rt; map.next_free(0), Some(1));
//! ```
#![tactic(auto)]

mod block_map;
mod lanes;
mod plain;

pub use block_map::Map;
