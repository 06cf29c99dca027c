//! The image check: whether a whole disk is sound, and which fault is at which block where it isn't. It only reads.
//!
//! The model is that of `sn_sound`: `IsClean` says when a disk is sound, with so many free blocks, `IsFaulty` that a
//! fault is at a block and none of an earlier group is, and `HasNoVerdict` why a check has nothing to say. Over a device
//! that tells its bytes the answer is exact, since no disk is two of these (`fault_laws` of `sn_sound`).
//!
//! The order is that of the groups: superblock, gates, versions and root bodies, which give the newest root
//! (`find_newest` of `sn_examine`); pointers, spelling, map and links of all roots (`check_roots` of `sn_check_roots`);
//! and then the log on top of the newest root, which is tried over its tree as it is on disk (`sn_check_log`), since
//! whether a record can be applied depends on those before it.
//!
//! [`check`] answers with a verdict, and [`test_disk`] with the fault that a mount reports: a mount begins with it.
//!
//! The way through: `specs/Verdicts.antt` says when an answer is right. `roots` checks all roots and counts what is free,
//! `logging` checks the log, `checking` puts them together.
//!
//! What the sources leave open is decided in `docs/DECISIONS.md`, under "The image check".
//!
//! ```text
//! let verdict = check(alloc, &mut blocks)?;
//! println!(rt; "{verdict}")?;
//! ```
#![tactic(auto)]

mod checking;
mod fault;
mod logging;
mod roots;
mod verdict;

pub use checking::{check, test_disk};
pub use verdict::Verdict;
