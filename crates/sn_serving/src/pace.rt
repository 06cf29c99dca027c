//! When consistency points are made between calls.
ghost use Rattle.std.specs.Prelude.{◌≡◌};
ghost use Rattle.sn_serving.specs.Paces as paces;

/// What is left of the log, of the disk, and of the consistency point in progress.
#[derive(Clone, Copy, Debug, PartialEq, Eq)]
pub struct Room {
    /// The steps of the point in progress, 0 where none is.
    pub steps_left: u64,
    /// The sectors that records can still take in the half of the log in use.
    pub log_left: u64,
    /// The free blocks of the root that counts.
    pub free: u32,
    /// The blocks of these that calls can still be charged for.
    pub left: u32,
}

// The sectors of the record of a write of 28,672 bytes, the most that a mount and an import write at once.
const RECORD_SECTORS: u64 = 59;

// Half of a half of the log.
const HALF_FULL: u64 = 128;

fn wants_point(room: &Room) -> bool
    ensures { result ≡ paces.wants_point room.now }
{
    let charged = room.free.saturating_sub(room.left);
    room.log_left < HALF_FULL || u64::from(room.left) < 2 * u64::from(charged)
}

/// How many steps are due after a call that was logged, where this is left: of the point in progress as many as end it before
/// the half of the log is full. Where none is, one begins when half of that half is taken, or more is charged than half of what
/// is left.
///
/// Proved: The steps that are due are those of `specs/Paces`.
pub fn steps_due(room: &Room) -> u64
    ensures { result ≡ paces.steps_due room.now }
{
    if room.steps_left > 0 {
        let records = room.log_left / RECORD_SECTORS;
        return room.steps_left.div_ceil(records.max(1));
    }
    if wants_point(room) { 1 } else { 0 }
}
