//! What a consistency point is built of, for what a mounted file system holds: definitions and laws alone.
//!
//! A point is built of the live tree, and makes of the snapshots what is asked for: nothing, one more, which has the
//! live tree as it is, or one less. One that brings a snapshot back is built of that one's tree instead, without the
//! files in it that have no name, and leaves all snapshots as they are. In every store that has its new blocks beside
//! what the root reaches, its root is sound with its snapshots and its map, and denotes the live tree and those frozen
//! trees. While it begins nothing that can be seen changes: at each moment a crash leaves an image of the settled
//! world.
//!
//! The way through: `specs/Snapshots.antt` says what becomes of the snapshots; `Builds.antt` what a build gives a point;
//! `Wholes.antt` what a point of the live tree is, and what holds once it has begun; `Laws.antt` what its beginning leaves,
//! and `Recovering.antt` a whole point that a mount makes of what it replayed; and `laws` has the functions that prove
//! them. `sn_cp_progress` says what the steps of a point leave.
//!
//! What the sources leave open is decided in `docs/DECISIONS.md`, under "Steps of a consistency point".
#![tactic(auto)]

mod laws;

pub use laws::{begin_laws, build_laws, recovery_laws};
