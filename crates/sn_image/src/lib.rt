//! What a root means: the tree of files and directories that it denotes, the blocks that it reaches,
//! and when it is sound. Definitions and laws, and no code that runs.
//!
//! The model. A root is a `BlockTree`, that of the inode file, over a `Store`, which says what is in
//! each block. What can be read of any bytes is a function of the two, and garbage reads as garbage:
//! - `Contents`: the bytes of a file's content and the blocks that it reaches.
//! - `Inodes`: the inode of a number, as the codecs' own type, or none. 32 records of 128 bytes are in
//!   each block of the inode file.
//! - `Acls`: the ACLs at an inode's pointer.
//! - `Names`: the names of a directory, block after block.
//! - `Reach`: the blocks that an inode and a root reach, with repeats.
//! - `Image`: the node of an inode, and the tree of `sn_model` that a root denotes.
//!
//! `Sound` says beside these when a root is sound. Its head says which definition has each rule of the
//! format, so that readers, the check and consistency points speak of one soundness. `WellFormed` has those
//! of the rules that can't be seen in the tree itself.
//!
//! The way through the laws, each of them named by the contract of a function that does nothing:
//! - `image_laws`: the node of a number is that of its inode, and the name of a directory denotes the
//!   number that is listed with it there. Above this crate `image` is known by these two alone.
//! - `footprints`: images and reach depend on the blocks that are reached, and so on a disk on the sectors
//!   of those. A write elsewhere changes neither.
//! - `reach_laws`: a root reaches a block as often as the inode file and its inodes do together.
//! - `reading_laws`: what a codec spells is read as it was spelled, so a decoder's answer is what is defined
//!   here.
//! - `byte_laws`: where blocks are whole, a byte in its own block is the byte of the content.
//! - `name_laws`: where no name occurs twice, the tree has as many names as the directories.
//! - `sound_laws`: a sound root denotes a name tree, whole: its hierarchy, its nodes, its names and their
//!   limits. And one that is placed and well formed is sound where it denotes one: so whoever makes a root
//!   shows of the tree what a change of it keeps anyhow, and of the blocks what they were filled with.
//!
//! What the sources leave open is decided in `docs/DECISIONS.md`, under "Images and their readers".
//!
//! ```text
//! SoundRootsAreTrees = (limits : Limits) (n : ℕ) (s : Store) (inodes : BlockTree)
//!     → limits_of limits.version ≡ Some limits
//!     → ((block : ℕ) → IsIn n Data block → IsBlock (s block))
//!     → IsSound limits n s inodes → IsTree limits (image s inodes)
//!
//! NameTreesAreSound = (limits : Limits) (n : ℕ) (s : Store) (inodes : BlockTree)
//!     → IsPlaced n s inodes → IsWellFormed limits s inodes
//!     → IsTree limits (image s inodes) → IsSound limits n s inodes
//! ```
#![tactic(auto)]

mod laws;

pub use laws::{
    byte_laws, footprints, image_laws, name_laws, reach_laws, reading_laws, sound_laws,
};
