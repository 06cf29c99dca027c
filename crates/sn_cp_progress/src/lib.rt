//! Consistency points in progress, with calls between any two of their steps. Definitions and laws, and no code that runs.
//!
//! The model. `sn_held` says what a mounted file system holds (`Runs`), `sn_cp` what the steps of a point leave of a disk, and
//! `sn_cp_held` what a point is built of. Here is what holds between two steps (`RunsOn`): the root that counts is still the old
//! one, with its records, and after them those of the next epoch, which were logged since the point began. The
//! point was built of the live tree as it was then, with the frozen trees that its root is to have. Each record since is thus
//! both one on top of the old root and its records, and one on top of the next root alone: that is why its last step, which
//! makes the next root the one that counts, changes nothing of the world but the snapshots, where the point makes one or lets
//! one go.
//!
//! A point that brings a snapshot back leads to another live tree than the mount's own (`RunsTo`). It is begun and finished in
//! a row, so no call comes between its steps, and nothing is logged since it began.
//!
//! The laws, each of them one clause of [`progress_laws`]:
//! - `begins`: from a mount that is ready for a point to one with a point in progress.
//! - `steps`, `ends`: a crash at any moment of a step leaves an image of the settled world, or in the last step of that with the
//!   point's snapshots (`EitherImage`); after that step the mount is ready for another point, over the next root, with
//!   these snapshots and with what was logged since. So do all that are left, made in a row (`finishes`).
//! - `fits`: a call that fits on the root that counts fits on that of the point in progress too, since that takes no more
//!   of what is free than was charged before the point began.
//! - `either`, `appends`: a call that is logged between two steps leaves to a crash the world before it or the one after it,
//!   and the point where it was.
//! - `drops`: so does a call that logs nothing.
//!
//! What a mounted file system means is said here too (`Means`), since it runs either between two points or with one in progress.
//!
//! The way through: `specs/Progress.antt` says what is held, `Meaning.antt` what that means, `Laws.antt` what becomes of it.
//!
//! What the sources leave open is decided in `docs/DECISIONS.md`, under "Steps of a consistency point".
#![tactic(auto)]

mod laws;

pub use laws::progress_laws;
