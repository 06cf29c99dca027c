//! The log: the changes since the root, record by record, in the two halves of the disk that epochs
//! take in turn.
//!
//! The model. A `LogPosition` says where in the log reading or appending continues: on a disk of how many
//! blocks, in the half of which epoch, at which place, and after how many records. [`Position`],
//! [`Log`] and [`Replay`] are seen as one. What is on the disk is said in the words of `sn_ondisk`,
//! for lists of changes by their payloads: `IsBehind` (the records of these changes lead up to the
//! position) and `IsReadyAt` (and the gate there is closed, so that one more can be appended).
//!
//! What the clauses say, over any device, those on bytes where it tells them:
//! - [`Log::append`]: where each crash left these changes, a crash at any moment of the call leaves them
//!   or them with the new one, after `Ok` each leaves the new one too, and only sectors of the half were
//!   touched. A record of n sectors costs n + 2 writes and 2 syncs. It takes no memory.
//! - [`Replay::next`]: a change where its record is next in the epoch after an open gate, the end
//!   where replay stops, and else a misspelt record, for which no change is there. What follows
//!   a closed gate, of another epoch or out of turn never counts. By the law [`replay_finds_the_next`],
//!   where the records are those of some changes, it finds these in turn and then the end.
//! - [`clear`] and [`close_half`]: zeros are written over the one sector that `cleared_sector` names,
//!   which at no moment changes the records that end there or adds a later one. After `Ok` the place is
//!   closed after each crash.
//! - [`has_no_later`]: whether a record of a later epoch is at the first place of a half, exactly over any
//!   bytes. A mount asks it of both halves, since such a record would count once its epoch begins.
//! - [`Log::go_to_epoch`] goes to another epoch in memory alone.
//!
//! The way through: `specs/Positions.antt`, `Appending.antt`, `Replaying.antt` and `Clearing.antt` have
//! the words of the clauses, `Laws.antt` the law. `log` and `replay` have the two types, `appending` the writes of an append
//! in their order, `body` what a record is spelled with, `sectors` what is read, `later` the test of a first
//! place, and `clearing` the rule for a place that is to count no longer.
//!
//! What the sources leave open is decided in `docs/DECISIONS.md`, under "The log".
//!
//! ```text
//! let mut buffer = Buffer::new(alloc)?;
//! let mut replay = Replay::new(geometry, epoch);
//! loop {
//!     match replay.next(&mut blocks, &mut buffer)? {
//!         NextRecord::Change(change) => tree.apply(&change)?,
//!         NextRecord::End => break,
//!         NextRecord::Misspelt { block } => return Err(Damaged { block }),
//!     }
//! }
//! clear(&mut blocks, geometry, LogHalf::of_epoch(epoch), replay.position().place())?;
//! let mut log = Log::new(replay.position(), buffer);
//! if let Some(payload) = Payload::of(&change) {
//!     if log.has_room(&payload) {
//!         log.append(&mut blocks, &payload)?;
//!     }
//! }
//! ```
#![tactic(auto)]

mod appending;
mod body;
mod buffer;
mod clearing;
mod later;
mod laws;
mod log;
mod position;
mod replay;
mod sectors;

pub use buffer::Buffer;
pub use clearing::{clear, close_half};
pub use later::has_no_later;
pub use laws::replay_finds_the_next;
pub use log::Log;
pub use position::Position;
pub use replay::{NextRecord, Replay};
