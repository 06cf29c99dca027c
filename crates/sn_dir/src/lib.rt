//! Reading directories: the number under a name, how many names there are, and all of them in order.
//!
//! The model is that of `sn_image`, which says for any blocks at all what names a directory has:
//! `names_of`, block after block, and `number_of`, which finds the first of a name. Over a device that
//! tells its bytes the answers are these, exactly, on a sound image and on any other.
//!
//! A directory's tree is read through the cache of `sn_block`, one block after the other, and each block is
//! read in place by `DirectoryBlock` of `sn_layout_node`. `Damaged` comes where a block that is needed isn't
//! on the device, is a hole, or doesn't spell names (`CanRead`), and there alone: the blocks are needed in
//! turn, up to where the answer is known (`IsDamaged`). By `directory_laws` it never comes on a sound image
//! whose blocks are on the device. Nothing is written.
//!
//! The format has no index, so a name may be in any block. A directory of three blocks or more gets one in
//! memory, which `Blocks` keeps beside its blocks: `begin_index` begins it, and then `lookup` adds to it
//! the names of each block that it reads. The first look-up that finds nothing reads all blocks. Each later
//! one reads only those that may have the name, mostly one or none, and goes over the index in the time that
//! a binary search takes. The answers are those of going through all blocks. The first
//! look-up in a directory of more than sixteen blocks reads up to sixteen indirect blocks besides.
//!
//! `lookup` takes memory for the index, and goes through all blocks where that is refused. `count` and
//! `is_empty` take none of their own. Blocks that aren't kept do.
//!
//! The way through: `blocks` fetches and decodes one block, `indexes` begins an index, `lookups` goes over
//! blocks, `listings` copies the names and sorts them. A block by itself, by `fetch_block` and `decoded`, is for those who change names.
//!
//! What the sources leave open is decided in `docs/DECISIONS.md`, under "Images and their readers".
//!
//! ```text
//! let number = lookup(blocks, &tree, b"passwd")?;
//! for listed in &names(alloc, blocks, &tree)? { .. }
//! ```
#![tactic(auto)]

mod blocks;
mod indexes;
mod laws;
mod listings;
mod lookups;

pub use blocks::{block_count, decoded, fetch_block};
pub use indexes::begin_index;
pub use laws::directory_laws;
pub use listings::{ListedName, names};
pub use lookups::{count, is_empty, lookup};
