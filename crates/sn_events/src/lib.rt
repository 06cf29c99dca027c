//! What an event of a mounted file system may lead to: its reply, the state that it is in then, what a crash on the way leaves,
//! and what it costs. Definitions and lemmas, and of code the fault of a change alone.
//!
//! The model. `sn_held` says what a mounted file system holds (`Held`), `sn_cp_progress` which state of the machine of
//! `sn_model` it means. An event leads from what was held to what is held (`Answers`): the step of the machine that it is, the
//! point that was made during it, if one was, what each crash leaves, and what is held then, given by what was held after that
//! point (`Leaves`): the world, the log, the room, the numbers that are kept back, the point in progress, the sectors that were
//! touched, and the writes and syncs. `sn_fs` carries events out and rests on the lemmas.
//!
//! The way through: `specs/Answers.antt` says what an event leads to; `Serving.antt` a call without a point, `Changing.antt` what a
//! change does in memory and on the disk, `Pointing.antt` a point, whole or in steps, `Unmounting.antt` that of an unmount,
//! `Mounting.antt` what a mount makes of a disk, `Durable.antt` what a root has without the log, `Dropping.antt` which files
//! without names go, and `Mounted.antt` of which parts a mounted file system is made. The lemmas have the names of what they
//! lead to.
//!
//! What the sources leave open is decided in `docs/DECISIONS.md`, under "Mount and calls over a device".
#![tactic(auto)]

mod fault;

pub use fault::ChangeFault;
