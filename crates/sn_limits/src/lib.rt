//! What walks, the model, the codecs and the charges share: the numbers that a version of the disk's
//! format fixes, the units of a disk, what a node is, and the names that directories and snapshots can have.
//!
//! `specs/Versions` writes the numbers of each version down, and [`Limits::of_version`] answers them
//! exactly. No other crate has a number of its own for what is defined here. `specs/Names` and
//! `specs/SnapshotName` are the grammars of names, which [`is_name`] and [`SnapshotName`] decide.
//!
//! The way through: `limits` has the numbers of each version, `sizes` the units of a disk, `kind` what a node is, and `name` and
//! `snapshot_name` the two grammars.
//!
//! What the sources leave open is decided in `docs/DECISIONS.md`, under "Limits".
//!
//! ```text
//! let limits = Limits::of_version(2)?;
//! let name = SnapshotName::parse(b"nightly")?;
//! ```
#![tactic(auto)]

mod kind;
mod limits;
mod name;
mod sizes;
mod snapshot_name;

pub use kind::Kind;
pub use limits::Limits;
pub use name::{NAME_MAX, begins_with_name, has_name_length, is_name, is_name_spelled};
pub use sizes::{BLOCK_SIZE, Block, SECTOR_SIZE, SECTORS_PER_BLOCK, Sector};
pub use snapshot_name::{SNAPSHOT_NAME_MAX, SnapshotName};
