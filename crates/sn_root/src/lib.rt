//! The two slots of roots: which root counts, and how the other one is replaced.
//!
//! A root is the state that a consistency point left on the disk. It is in one of two slots, a body
//! in a block of its own after a gate, and of the slots whose gate is open the one with the greater
//! generation counts. A point replaces the other slot, in three parts of which each is a call of its own:
//! close the gate (`close_slot`), write the body (`write_body`), open the gate (`open_slot`). Each ends in
//! a sync, and calls of the log may come between them. `replace` is the three in a row.
//!
//! The model is that of `sn_ondisk`: `IsNewest`, the root that counts, and `Shown`, that root with the
//! records of the log on top of it. `NewestRoot` is what a caller keeps of it in memory.
//!
//! What the clauses say:
//! - `newest` finds the root that counts, or the first fault there is: no open slot, then a version that
//!   isn't read, then damage. `Finds` says when each comes, and by `finding_is_one` a disk has one answer,
//!   so that each comes exactly then.
//! - Each part has a clause `bytes`: which sectors it touched, whatever its answer, what reads give at
//!   `Ok`, and that nothing is unsynced then. A gate that is closed isn't written by `close_slot`.
//! - Each part has a clause `root`, over crashes at any moment of it. Closing and the body leave the root
//!   that was newest, with its records (`KeepsRoot`). Opening leaves it or the next one with the records
//!   of its own epochs, and after `Ok` the next one (`ChangesRoot`).
//! - What a part needs is a `requires` on every content that a crash may leave: a closed gate before the
//!   body is written, and both before the gate opens. `log_keeps_slots` carries that over calls of the log.
//!
//! The way through: `specs/Slots.antt`, `Finding.antt` and `Replacing.antt` have the words of the clauses.
//! `slots` reads the gates (`read_gate`, one of them) and what an open slot holds, `finding` chooses, `following` has the next
//! root's generation and epoch, and `replacing` the three parts.
//!
//! What the sources leave open is decided in `docs/DECISIONS.md`, under "Roots".
//!
//! ```text
//! let newest = newest(&mut blocks)?;
//! let next = next_root(&newest.root, &newest.root.limits, PointKind::Ordinary)?;
//! close_slot(&mut blocks, newest.slot.other(), newest.other)?;
//! write_body(&mut blocks, newest.slot.other(), &next)?;
//! open_slot(&mut blocks, newest.slot.other())?;
//! ```
#![tactic(auto)]

mod fault;
mod finding;
mod following;
mod laws;
mod replacing;
mod slots;

pub use fault::{RootDamage, RootFault};
pub use finding::{NewestRoot, newest};
pub use following::{PointKind, next_root};
pub use laws::{finding_is_one, log_keeps_slots};
pub use replacing::{close_slot, open_slot, replace, write_body};
pub use slots::read_gate;
