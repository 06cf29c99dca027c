//! What is on a disk besides its trees: its size, its newest root with its map, and the room that is left; and what the log
//! makes of a root's tree. It only reads. A mount begins with it (`sn_mount`), and so does the image check (`sn_check`).
//!
//! The model. `sn_held` says when contents are an image of a world (`IsImage`). [`find_root`] reads superblock and roots,
//! and looks at the first places of both halves of the log. The records of the root's epoch and of the next one are
//! replayed over the root's tree by `sn_check_log`, to what `Both.antt` says here. [`find_room`] looks whether what they
//! are charged is free, and [`test_age`] whether an age is left where something is to recover.
//!
//! What the clauses say, those on bytes of each device that tells them:
//! - `found`: the newest root of a formatted disk is found, and no record of an epoch after the next one comes first.
//! - `refuses`: the faults of superblock, gates and versions come in this order, and a damage of the roots or the log is at
//!   the block that it is reported at (`Refuses`).
//! - Nothing is written, and the device is reported as failed only where it did.
//!
//! What a mount finds in all is `HasFound`: `sn_mount` puts it together. That what the image check calls clean are the
//! images of worlds, and no other disks, is the law `image_laws`.
//!
//! The way through: `specs/Refusing.antt` says why a disk can't be mounted, `Finding.antt` and `Both.antt`
//! what is read, `Replaying.antt` what replay makes of a tree. `examining` and `finding` read what comes first, `room` the
//! map, `ages` says whether there is an age for a recovery.
//!
//! What the sources leave open is decided in `docs/DECISIONS.md`, under "Mount of a root".
//!
//! ```text
//! let DiskRoot { geometry, slot, root } = find_root(&mut blocks)?;
//! let (map, room) = find_room(alloc, &mut blocks, geometry, slot, &root, charges, dropped)?;
//! ```
#![tactic(auto)]

mod ages;
mod examining;
mod fault;
mod finding;
mod laws;
mod room;

pub use ages::{is_to_recover, test_age};
pub use examining::none_later;
pub use fault::{fault_of, fault_of_tree};
pub use finding::{DiskRoot, find_newest, find_root};
pub use laws::image_laws;
pub use room::{find_room, read_map};
