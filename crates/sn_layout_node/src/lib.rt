//! How the parts of a file system's trees are spelled, both ways: inodes, directory blocks, indirect
//! blocks; and the fields that log records share with them.
//!
//! Each value has one spelling, a definition in `specs/` such as `record_bytes` or
//! `directory_bytes`, and `decode` answers a value exactly where bytes are the spelling of one.
//! `DirectoryBlock` and `IndirectBlock` are lent: `decode` tests the block once, and its names or
//! pointers are read in place. A directory block is seen as the list of its names with
//! their numbers, an indirect block as the list of its pointers. A name is put into a directory
//! block or taken out of it in place, and so is a pointer set. No call takes memory.
//!
//! The way through: `inode` over `head` and `content`, `directory`, `indirect`. `fields` and `name`
//! are what inodes and names look like in a log record too, whose bytes may end early.
//!
//! What the sources leave open is decided in `docs/DECISIONS.md`, under "The codecs".
//!
//! ```text
//! let names = DirectoryBlock::decode(&block)?;
//! let number = names.find(b"passwd");
//! for entry in names.entries() { .. }
//! ```
#![tactic(auto)]

mod content;
mod directory;
mod fields;
mod head;
mod indirect;
mod inode;
mod name;

pub use content::{Content, INLINE_MAX, InlineBytes};
pub use directory::{DirectoryBlock, DirectoryEntry, Entries};
pub use fields::{SpecialBits, put_kind, put_special_bits, read_kind, special_bits_of};
pub use indirect::{IndirectBlock, POINTERS_PER_BLOCK};
pub use inode::{INODE_SIZE, Inode, InodeRecord, LINKS_MAX};
pub use name::{put_name, read_name};
