//! Formats a device, so that it holds a file system whose root directory is empty.
//!
//! The model is that of `sn_opening` and `sn_sound`: what reads give `Opens` to the new world, and is a
//! sound disk with its first root in slot A. That root has generation 1 and epoch 1, no snapshots, and
//! an inode file of one block, the first of the data area, in which number 2 alone is used. All other
//! data blocks are free, the map copy of slot A says so, and neither half of the log has a record.
//!
//! The device comes by value and is handed back, formatted or not. For one that doesn't tell its bytes
//! the clauses say only what its counts are.
//!
//! The way through: `specs/Fresh.antt` has the formatted disk part by part, `specs/Faults.antt` what a fault
//! says. `fresh` has the first root and its directory, `writing` what is written, in which order, and
//! `formatting` the call. A caller that asks for the number of blocks before it has a device asks
//! `sn_layout::Geometry::new`. `proofs/` shows first that the parts make up such a disk, and then that it
//! opens to the new world and is sound.
//!
//! What the sources leave open is decided in `docs/DECISIONS.md`, under "Formatting".
//!
//! ```text
//! match mkfs(alloc, device, 256) {
//!     Ok(device) => ..,
//!     Err(unformatted) => println!(rt; "{}", unformatted.fault)?,
//! }
//! ```
#![tactic(auto)]

mod fault;
mod formatting;
mod fresh;
mod writing;

pub use fault::{MkfsFault, Unformatted};
pub use formatting::mkfs;
