use crate::{Bytes, Change, OpenFlags, Ownership, Reply, Session};
use sn_acl::Mode;
use sn_limits::{Kind, SnapshotName};
use sn_walk::Home;

/// What changes in the live tree.
#[derive(Drop)]
pub enum Pending<'a> {
    Nothing,
    /// A new node under a name, whose number is yet to be chosen.
    Makes {
        directory: u16,
        name: Bytes<'a>,
        kind: Kind,
        ownership: Ownership,
    },
    Does(Change<'a>),
}

/// What becomes of the caller's session and of what it has open.
#[derive(Drop)]
pub enum Caller {
    Stays,
    LogsIn(Session),
    SetsUmask(Mode),
    /// The session ends, and all that it has open is closed.
    LogsOut,
    /// It gets a descriptor of a file that is there.
    Opens {
        fd: u32,
        home: Home,
        number: u16,
        flags: OpenFlags,
    },
    /// It gets a descriptor of the live file that the call makes.
    OpensNew {
        fd: u32,
        flags: OpenFlags,
    },
    Closes {
        fd: u32,
    },
    /// A descriptor gets another offset.
    Moves {
        fd: u32,
        offset: u64,
    },
}

/// The whole consistency point that a call asks for.
#[derive(Drop)]
pub enum AskedPoint {
    /// None. A call makes one all the same where it lacks what one gives.
    Unasked,
    /// One that changes no tree.
    Plain,
    /// One that freezes the live tree in a snapshot with this name.
    Freezes(SnapshotName),
    /// One with which the snapshot with this name goes.
    Thaws(SnapshotName),
    /// One with which the live tree becomes that of the snapshot with this name, without its files without names.
    Restores(SnapshotName),
}

/// The outcome of a call once its tests have passed: fields that don't depend on one another.
#[derive(Drop)]
pub struct Outcome<'a> {
    /// In blocks.
    pub charge: u64,
    pub change: Pending<'a>,
    pub caller: Caller,
    pub told: Reply,
    pub point: AskedPoint,
}
