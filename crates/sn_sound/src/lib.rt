//! When a whole disk is sound, and what is wrong with one that isn't. Definitions and laws, and no code
//! that runs.
//!
//! The model. `sn_image` says when one root is sound, `sn_root` which root is the newest and when roots
//! are damaged, and `sn_opening` what a disk opens to. Here they come together:
//! - `Maps`: the roots of a disk, the live one and those of snapshots, each with its bit; and when the words of
//!   the block map say what they reach. `IsSoundRoot` is the one definition of this, for a disk and for
//!   what a mounted file system keeps of it.
//! - `Charges`: what the records of a log were charged, and when that fits.
//! - `Logs`: when the log is sound on top of the newest root, and its faults.
//! - `Disks`: `IsSoundDisk`, which is all of it, and what a run asks of the image that it begins with.
//! - `Faults`: the faults of one root, each with the block that it is reported at.
//! - `Verdicts`: `Stands` is one relation for all kinds of faults, of any contents at all; `IsFirst` adds
//!   that there is none of an earlier group; and what a check is to answer.
//! - `Standing`: what a mounted file system knows of its root, and of the log on top of it.
//!
//! | kind | its rule, where the disk is sound | its fault otherwise |
//! |---|---|---|
//! | C1 | `IsNewest` | `IsDamaged` of `sn_root`, at its `block_of` |
//! | C2, C3, C5 | `IsSound` of each root | `LeadsOut`, `IsReachedTwice`, `IsMisspelt` |
//! | C4 | `TellsRoots` | a word that isn't the set of the roots that reach its block |
//! | C6 | `IsSound`, its part `IsLinked` | `IsLinkFault` |
//! | C7 | `HasSoundLog` | `IsLogFault` |
//!
//! Records, names and reach are read of any bytes, so each fault can be seen by itself.
//!
//! The way through the laws, each of them named by the contract of a function that does nothing:
//! - `fault_laws`: a fault makes a root, and the whole disk, unsound; and free blocks are counted by
//!   the map.
//! - `opening_laws`: a sound disk opens to a world, to one alone, and that is one that a mount may find.
//! - `standing_laws`: whether a root is sound depends on the blocks that it reaches; so one that is in place is
//!   sound in whatever a crash leaves, and with its log that is a sound disk.
//! - `charge_laws`: charges are alike on the live tree and on the one that replay makes.
//!
//! What the sources leave open is decided in `docs/DECISIONS.md`, under "When a disk is sound".
#![tactic(auto)]

mod laws;

pub use laws::{charge_laws, fault_laws, opening_laws, standing_laws};
