//! A disk as the layers above see it: numbered sectors of 512 bytes, reads, writes and syncs that
//! may fail, and what a crash at any moment may leave.
//!
//! The model. A device that tells its bytes has a `Disk`: its present moment and every moment
//! before it. A `Moment` is what reads give, and which sectors were written or tried since the
//! last sync that succeeded. Each write and each sync, failed or not, leads to one more moment,
//! so the number of past moments is the clock. A crash at a moment may leave any bytes in its
//! unsynced sectors and leaves every other sector as reads give it (`MayLeave`). `CrashNow` is
//! this for the present moment, and `CrashSince` for some moment since the clock was t, so
//! that a clause can speak of each moment inside a call. `Always` says that every content which a
//! crash may leave now has a property, `reads` is what reads give, and `IsSynced` that a crash
//! leaves that and nothing else.
//!
//! What every device reports, also one that doesn't tell its bytes, is its `Status`: the number of
//! its sectors, the counts of its failures, writes and syncs, and whether it has ended.
//! A fault comes only with one more failure, or at the end. Every clause on bytes and crashes has
//! the premise `IsTrue tells_bytes`.
//!
//! The way through the crate:
//! - `specs/Sectors.antt`, `Disk.antt`, `Status.antt` and `Device.antt` say what the clauses of the
//!   trait mean, and `crash_laws` that the definitions keep the laws that one would expect.
//! - `specs/Crash.antt` has the words for the layers above: `LeavesOnly` (each content that a crash
//!   since some moment might have left has a property) and `Touches` (only sectors of a set were
//!   written). `proofs/CrashLemmas.antt` carries both over calls, calls in a row and loops. A clause
//!   on crashes rests on three of its lemmas: `CrashSince-before` (what a crash since a moment may
//!   leave is what one at that moment may leave, with any bytes in the sectors touched since),
//!   `Always-kept` (what always holds and depends on other sectors still holds) and
//!   `Always-synced` (after a sync, what reads give is all). `proofs/CallLemmas.antt` has one for each
//!   call, `proofs/SectorLemmas.antt` those on sets of sectors, and `proofs/StatusLemmas.antt`
//!   those on the counts.
//! - `MemDevice` keeps all this in memory. It can be set to fail, and it can crash, with one `Fill`
//!   for all sectors that weren't synced, or for each of them one that a seed draws.
//! - An example of a layer over any device is the journal of two sectors, a body and a gate, that the crate
//!   `sn_tests_disk` proves and runs. Its writer is
//!
//! What the sources leave open is decided in `docs/DECISIONS.md`, under "The device".
//!
//! ```text
//! pub fn put<D: Device>(device: &mut D, body: &Sector) -> Result<(), Fault>
//!     requires room { BODY < (D.status device.old).sectors }
//!     requires empty { IsTrue D.tells_bytes → Holds None (D.disk device.old) }
//!     ensures acknowledged { IsTrue D.tells_bytes
//!         → OnOk result (Holds (Some body.now) (D.disk device.new)) }
//!     ensures any_moment { IsTrue D.tells_bytes
//!         → LeavesOnly (D.disk device.old) (D.disk device.new) (IsBeforeOrAfter body.now) }
//! {
//!     device.write(BODY, body)?;
//!     device.sync()?;
//!     device.write(GATE, &OPEN)?;
//!     device.sync()
//! }
//! ```
//!
//! Its proof has a line for each call.
#![tactic(auto)]

mod device;
mod fault;
mod fill;
mod laws;
mod lent;
mod memory;
mod plan;
mod status;

pub use device::Device;
pub use fault::Fault;
pub use fill::Fill;
pub use laws::crash_laws;
pub use memory::MemDevice;
pub use plan::{Plan, Stop};
pub use sn_limits::{SECTOR_SIZE, Sector};
pub use status::Status;
