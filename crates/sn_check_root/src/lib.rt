//! Checking one root of an image: its pointers, and what is spelled in its blocks. Whether names and
//! links agree isn't looked at here.
//!
//! The model is that of `sn_image`, which says when a root is sound, and of `sn_sound`, which says which
//! fault is at which block, of any bytes at all. `IsSoundButLinks` is all of `IsSound` but its links,
//! and `StandsInRoot` has the faults of pointers and of spelling. By `root_laws` a root that has one
//! isn't sound, so over a device that tells its bytes the answer is exact, on any image.
//!
//! A block is marked before it is followed (`sn_marks`). So all that is read is in the data area, and
//! the readers of trees, inodes and directories find each block on the device: where one of them answers
//! `Damaged`, bytes spell nothing of their kind, and that is reported at their block. The marks of the inode
//! file and of all inodes add up to what the root reaches, each block once.
//!
//! The way through: `readers` looks up pointers and the block of a record, `directories` tests a
//! directory's blocks and names, `contents` all that is under one number, `reserved` the records that
//! no node has and the root directory, and `roots` goes over all numbers. In order: the size of the inode
//! file, its tree, the reserved records, each number, the root directory. The first fault found so is
//! reported. A directory's names are counted before memory is taken for them.
//!
//! What the sources leave open is decided in `docs/DECISIONS.md`, under "The image check".
//!
//! ```text
//! let root = RootBit { geometry, bit: 0 };
//! check_root(alloc, blocks, map, &root, &limits, &inode_file, body)?;
//! ```
#![tactic(auto)]

mod contents;
mod directories;
mod laws;
mod readers;
mod reserved;
mod roots;

pub use laws::root_laws;
pub use readers::{fault_at, pointer_to, record_block};
pub use roots::check_root;
