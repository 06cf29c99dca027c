//! A mount of any root: what a disk is an image of, over its root on the device, and where its log continues.
//!
//! The model. `sn_held` says when contents are an image of a world (`IsImage`), and when a mounted file system over a root
//! runs and is ready for a point (`RunsReady`). [`recover`] leads from the one to the other: it syncs, checks the whole disk
//! (`sn_check`), finds its newest root (`sn_examine`), tries the log over it (`sn_check_log`), and drops the files that have no
//! name. Where a record was replayed, a file dropped, or the root isn't of the version that is written, it makes a
//! root of that by a whole point (`sn_cp_whole`). What a root was read, replayed and charged by are the limits of its own
//! version; the root that is made has the written ones. Last it clears the first place of the half of the log that the root's
//! epoch has. No tree is read into memory: the world is one over the live tree of the root that counts (`sn_live_world`), and
//! has the frozen ones of that root's snapshots beside it.
//!
//! What the clauses say, those on bytes of each device that tells them:
//! - `recovers`: where the disk was an image of a world, that world runs, and from the first sync on every crash leaves an
//!   image of it, also where the mount fails (`IsRecovered`, `KeepsTheWorld`). Superblock, the root that counted and its map
//!   were never written, and nothing was written where the disk itself is why there is no mount; the cause (`IsCause` of
//!   `sn_check`) is then the one that a check of the image reports.
//! - `clean`, `runs` and `whole`: only a disk without a fault is mounted, and what is found there is a world, with the
//!   frozen trees of its snapshots, that runs (`RunsOver`).
//! - `over`: the world belongs to the tree of the root that counts then. After a mount nothing has changed of that,
//!   nothing is logged, and nothing is charged.
//! - `root`: a mount that succeeds makes a root exactly where a record was replayed, a file dropped, or the root isn't of the
//!   version that is written: the one that follows, two epochs on, for the writes and syncs of a whole point and a sync. Else
//!   the root stays, for one write and two syncs.
//!
//! The way through: `specs/Recovering.antt` says what a mount makes of a disk, `Settling.antt` what becomes of what was found,
//! `Rooting.antt` what of its root, `Costs.antt` what it costs; `examining` checks, `finding` reads, `settling` drops the
//! files and makes the root, `recovering` puts all together.
//!
//! What the sources leave open is decided in `docs/DECISIONS.md`, under "Mount of a root".
//!
//! ```text
//! let mut blocks = Blocks::new(alloc, device)?;
//! let Recovered { log, world, room, base } = recover(alloc, &mut blocks)?;
//! ```
#![tactic(auto)]

mod examining;
mod finding;
mod found;
mod recovering;
mod settling;

pub use found::Recovered;
pub use recovering::recover;
