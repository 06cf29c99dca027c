//! What is kept of room.
ghost use Rattle.std.specs.Prelude.{◌≡◌, ◌+◌, ◌<◌, ◌≤◌, ◌^◌, IfNone, IfSome, IsTrue, false, true};
ghost use Rattle.sn_held.specs.Rooms.{begun, charged_behind, done, dropping, fits, fresh, gives_back, is_covered, left, logged, mounted};

use sn_limits::Limits;
use sn_model::{Change, Outcome, Pending};
use std::marker::Model;

/// The free blocks of the durable root, and what calls have been charged against them since its moment.
#[derive(Clone, Copy)]
pub struct Room {
    free: u32,
    charged: u64,
    charged_since: u64,
    dropped: u64,
    dropped_since: u64,
}

impl Model for Room {
    ghost use Rattle.sn_held.specs.Rooms.{RoomCounts, IsRoom};

    ghost Value = { RoomCounts };

    ghost use Rattle.sn_held.specs.Told.{fields_of, room_of};

    ghost view = { room_of };

    ghost invariant = { λ r. IsRoom (room_of r) };

    ghost inverse = { fields_of };
}

/// Whether a change gives blocks back, so that it may use the reserve: whoever has filled a disk can still remove.
fn gives_back(change: &Pending<'_>) -> bool
    ensures { result ≡ gives_back change.now }
{
    match change {
        Pending::Does(Change::Remove { .. }) => true,
        _ => false,
    }
}

impl Room {
    /// So many data blocks are free, and nothing is charged: after a format, a recovery, or a mount that needed none.
    pub fn fresh(free: u32) -> Room
        ensures { result ≡ fresh free }
    {
        Room {
            free,
            charged: 0,
            charged_since: 0,
            dropped: 0,
            dropped_since: 0,
        }
    }

    /// After a mount, where so many data blocks are free, what was replayed was charged so much, and so many files were
    /// dropped that the root's tree has without names. None where these charges are more than is free.
    pub fn mounted(limits: &Limits, free: u32, charged: u128, dropped: u32) -> Option<Room>
        ensures covered { IfSome result (λ room. (room ≡ mounted free charged dropped) × (is_covered limits.now (mounted free charged dropped) ≡ true)) }
        ensures uncovered { IfNone result (is_covered limits.now (mounted free charged dropped) ≡ false) }
    {
        let parked = u128::from(limits.inode_charge) * u128::from(dropped);
        let within = u128::from(free);
        if charged > within || charged + parked > within {
            return None;
        }
        Some(Room {
            free,
            charged: charged as u64,
            charged_since: charged as u64,
            dropped: u64::from(dropped),
            dropped_since: u64::from(dropped),
        })
    }

    /// The data blocks that no durable root reaches.
    pub fn free(&self) -> u32
        ensures { result ≡ self.now.free }
    {
        self.free
    }

    /// The blocks that calls can still be charged for: those that are free, less what is charged and an inode's charge for
    /// each parked file. So many live files have no name. The reserve is among them.
    pub fn left(&self, limits: &Limits, nameless: u32) -> u32
        ensures { result ≡ left limits.now self.now nameless }
    {
        let parked = u128::from(nameless) + u128::from(self.dropped);
        let charged = u128::from(self.charged) + u128::from(limits.inode_charge) * parked;
        u128::from(self.free).saturating_sub(charged) as u32
    }

    /// Whether a call with this outcome fits, where so many live files have no name.
    ///
    /// Proved: A call fits exactly where the charges since the durable root's moment, its own, one inode's for each parked
    /// file, and the reserve unless it removes, are at most the free blocks.
    pub fn fits(&self, limits: &Limits, nameless: u32, outcome: &Outcome<'_>) -> bool
        ensures exact { result ≡ fits limits.now self.now nameless outcome.now }
        ensures within { IsTrue result → charged_behind limits.now self.now nameless outcome.now < 2 ^ 32 }
    {
        let parked = u128::from(nameless) + u128::from(self.dropped);
        let reserve = if gives_back(&outcome.change) {
            0
        } else {
            limits.reserve
        };
        let charges = u128::from(self.charged) + u128::from(outcome.charge);
        charges + u128::from(limits.inode_charge) * parked + u128::from(reserve)
            <= u128::from(self.free)
    }

    /// A call was logged, and is charged.
    ///
    /// Proved, also of `drop_files`, `begin_point` and `end_point`: What is charged and dropped is counted since the root's
    /// moment and since the point in progress began; a root that is durable leaves what came since its point.
    pub fn log(&mut self, charge: u64)
        requires { self.old.charged + charge < 2 ^ 64 }
        ensures { self.new ≡ logged charge self.old }
    {
        self.charged += charge;
        self.charged_since += charge;
    }

    /// A close or a logout dropped so many files without a name.
    pub fn drop_files(&mut self, count: u32)
        requires { self.old.dropped + count < 2 ^ 64 }
        ensures { self.new ≡ dropping count self.old }
    {
        self.dropped += u64::from(count);
        self.dropped_since += u64::from(count);
    }

    /// A consistency point begins.
    pub fn begin_point(&mut self)
        ensures { self.new ≡ begun self.old }
    {
        self.charged_since = 0;
        self.dropped_since = 0;
    }

    /// The root of the consistency point is durable, and leaves so many data blocks free.
    pub fn end_point(&mut self, free: u32)
        ensures counts { self.new ≡ done free self.old }
        ensures fewer { self.new.dropped ≤ self.old.dropped }
    {
        self.free = free;
        self.charged = self.charged_since;
        self.dropped = self.dropped_since;
    }
}
