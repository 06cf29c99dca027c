//! A run without a device, over a tree in memory: the outcome of a call, the change that it makes, and what becomes of its
//! session. Nobody but tests makes one: a mounted file system has its tree on the device (`sn_live_world`).
//!
//! [`run_plain`] answers a list of events, and its contract is the machine of `sn_model`: the replies
//! are a run of it from the empty world. The way through, below it: `world` has the tree of `sn_plain` and the sessions of
//! `sn_desc`, and serves one call: `deciding` has its outcome, by `sn_core_decide` over the sessions and
//! the tree as `view` shows it; `choosing` fills in a new node's number; the tree makes the change; and
//! `calling` sets what becomes of the session and its descriptors (`turn` of `sn_caller`), drops a file that nobody has and
//! no name stands for, and says which went. There are no snapshots: a call that would make one finds no
//! memory for it. `specs/Plain` says which world this represents,
//! `specs/Numbering` of `sn_caller` which number a new node gets from one event to the next.
//!
//! What the sources leave open is decided in `docs/DECISIONS.md`, under "The tree in memory".
//!
//! ```text
//! let (replies, end) = run_plain(alloc, &events);
//! ```
#![tactic(auto)]

mod calling;
mod choosing;
mod deciding;
mod fault;
mod plain;
mod view;
mod world;

pub use fault::WorldError;
pub use plain::run_plain;
pub use world::PlainWorld;
