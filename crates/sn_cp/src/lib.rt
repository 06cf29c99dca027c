//! The steps of a consistency point: what was built in memory becomes the root that counts, a few sectors at a time.
//!
//! The model. `sn_opening` says what a point writes (`Plan`), how far it is (`HasReached`), and what each step leaves
//! of what a disk opens to. A [`Point`] owns all that it writes: its new blocks, the words of the new map, and the
//! next root's body; so a step reads nothing and takes no memory. It is seen as a `Work` with its stage.
//!
//! What the clauses of [`Point::advance`] say, those on bytes of each device that tells them:
//! - Whatever the answer, only the step's own sectors were written: a new block, a block of the slot's map copy, its
//!   gate, its body. In the parts of the root a crash at any moment leaves the root that was newest with its records,
//!   and in the gate's opening that or the next one (`TakesRoot`).
//! - At `Ok` the point is at its next stage (`StandsAtStage`), which is what the step after it asks for.
//! - Each step has at least one write and at most eight, and exactly so many of them and syncs as its stage has.
//!
//! [`Point::finish`] makes all that are left and says so of them together: what was touched, exact counts, and that a
//! crash at any moment leaves the root that was newest or the next one (`Finishes`). [`Point::steps_left`] says how many
//! they are. [`begin`] comes first where calls continue in the course of the point: it clears the half of the log that the
//! next epoch has, and has the log continue there.
//!
//! What the disk shows is said by laws, on a disk of the point's own size and beside a root that is given:
//! - [`shown_laws`]: until the gate is opened a crash at any moment of a step leaves that root with its records, in the
//!   opening that or the next one (`ShowsNext`); a call of the log between two steps leaves the point at its stage; and no step
//!   touches the superblock, the map of the slot that counts, or the log.
//! - [`next_laws`]: what shows the next root opens to the tree that was built, with the records of its epochs on top of
//!   it, and once the point is done, that root is sound in what is read.
//! - [`count_laws`]: each step leaves one less, and with its beginning a point of F new blocks and M blocks of the map
//!   has at most F + M + 4.
//!
//! The order is that of Hitz, Lau and Malcolm 1994: new blocks first, then the map, synced after its last block; then
//! the three parts of the root, each synced. A gate that is closed isn't closed again, since a torn write might open
//! it over a body that never counted.
//!
//! The way through: `specs/Points.antt` has what a point is, `Steps.antt` its stages and what a step does,
//! `Counting.antt` what is left of it, `Showing.antt` what it leaves of what the disk shows, `Beginning.antt` how it
//! begins; `point` has the type, `steps` each step, `beginning` what comes before them, `laws` the laws.
//!
//! What the sources leave open is decided in `docs/DECISIONS.md`, under "Steps of a consistency point".
//!
//! ```text
//! begin(&mut blocks, geometry, &mut log)?;
//! while point.steps_left() > 1 {
//!     point.advance(&mut blocks)?;
//!     log.append(&mut blocks, &payload)?;
//! }
//! point.finish(&mut blocks)?;
//! ```
#![tactic(auto)]

mod beginning;
mod laws;
mod point;
mod stage;
mod steps;

pub use beginning::begin;
pub use laws::{count_laws, next_laws, shown_laws};
pub use point::Point;
pub use stage::Stage;
