//! How a disk is spelled, both ways: where its parts lie, its superblock and its root bodies.
//!
//! Each value has one spelling, a definition in `specs/` such as `superblock_bytes` or
//! `root_body_bytes`. `encode` writes exactly it into a lent block, whatever was there, and
//! `decode` answers a value exactly where a block is the spelling of one: `found` says that the
//! block is the value's spelling, and `only` that a block which is a value's spelling is read as
//! that value. A value that no block is read as is not encoded. No call takes memory.
//!
//! The way through: `geometry` (areas of a disk), `superblock`, `gate`, `map_copy`, `pointers` and
//! `tree` (a root of blocks), `snapshot` and `snapshots`, `root`, whose limits and names are those
//! of `sn_limits`. What reads and writes the bytes is `sn_bytes`, which comes with this crate.
//!
//! What the sources leave open is decided in `docs/DECISIONS.md`, under "The codecs".
//!
//! ```text
//! let superblock = Superblock::decode(&block)?;
//! let map = superblock.geometry.range(Area::MapCopy(Slot::A));
//! ```
#![tactic(auto)]

mod gate;
mod geometry;
mod map_copy;
mod pointers;
mod root;
mod snapshot;
mod snapshots;
mod superblock;
mod tree;

pub use gate::Gate;
pub use geometry::{Area, Geometry, LARGEST_DISK, LogHalf, SMALLEST_DISK, Slot};
pub use map_copy::{WORDS_PER_BLOCK, put_map_words, read_map_words};
pub use pointers::{POINTERS, Pointers};
pub use root::{LARGEST_AGE, RootBody};
pub use sn_bytes::{Reader, put_bytes, put_u8, put_u16, put_u32, put_u32s, put_u64, put_zeros};
pub use sn_limits::{BLOCK_SIZE, Block, SECTOR_SIZE, SECTORS_PER_BLOCK, Sector};
pub use snapshot::Snapshot;
pub use snapshots::{SNAPSHOT_ROOM, Snapshots};
pub use superblock::Superblock;
pub use tree::BlockTree;
