//! What becomes of frozen trees in the machine of `sn_model`: laws, and no code that runs.
//!
//! A snapshot is made by one call and deleted by another. In between its tree is unchanged: whatever calls, steps and
//! restarts come, whatever fails, and wherever a crash cuts a run short. So whoever reads below `/.snapshot/NAME` finds
//! the names, the bytes, the owners and the access lists that were there when the snapshot was made.
//!
//! The way through: `specs/Staying.antt` has the laws of what stays, `specs/Reading.antt` that of who reads what in it, and
//! [`snapshot_laws`] proves them.
//!
//! What the sources leave open is decided in `docs/DECISIONS.md`, under "Snapshots".
#![tactic(auto)]

mod laws;

pub use laws::snapshot_laws;
