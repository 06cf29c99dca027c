//! Reading block trees: a pointer on its path, a data block, the bytes of a file.
//!
//! The model is that of `sn_ondisk` and `sn_image`, which say what is in a tree for any blocks at
//! all: `entry`, `data_block`, `byte_of`. Over a device that tells its bytes the answers are these,
//! exactly, on a sound image and on any other. `Damaged` comes where a block that is needed isn't
//! on the device (`path_lies_on`, `block_lies_on`), and there alone, and it names the first such block on
//! the way (`block_met`). Whether or not the device tells its bytes, the
//! calls end after at most one block for each level of the tree and each data block, and write nothing.
//!
//! A hole is found by its pointer and never read. A data block is lent from the cache of `sn_block`:
//! after `fetch_data` has answered its number, `blocks.fetched()` is the block. `read` copies bytes once,
//! out of the lent blocks into their place, and it alone takes memory.
//!
//! The levels are a recursion: to look a pointer up, look up the one above it, and read one pointer of
//! its block. A tree of three levels is no case of its own.
//!
//! The way through: `entries` looks pointers up, `reads` reads data blocks and bytes, `fault` has `Damaged`, and `laws` what follows.
//!
//! What the sources leave open is decided in `docs/DECISIONS.md`, under "Images and their readers".
//!
//! ```text
//! if fetch_data(blocks, &tree, 0)?.is_some() {
//!     let block = blocks.fetched();
//! }
//! let bytes = read(alloc, blocks, &content, 0, 4096)?;
//! ```
#![tactic(auto)]

mod entries;
mod fault;
mod laws;
mod reads;

pub use entries::{entry, fetch_data, lies_on};
pub use fault::TreeFault;
pub use laws::read_laws;
pub use reads::read;
