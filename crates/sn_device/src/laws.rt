//! The laws that the definitions of `specs/` keep.
ghost use Rattle.sn_device.specs.Laws.{NowCounts, OnlyNow, ClockMovesOn, CallAdds, WriteTears, SyncSettles, StretchTears, TouchesTear, OthersAreKept, SyncedIsRead, StretchWidens};

/// What a crash may leave, as laws over all disks. It does nothing: its contract is what it is for.
///
/// Proved: A property of every content that a crash may leave is carried over calls, stretches of sectors and writes
/// elsewhere.
pub fn crash_laws()
    ensures now_counts { NowCounts }
    ensures only_now { OnlyNow }
    ensures clock_moves_on { ClockMovesOn }
    ensures call_adds { CallAdds }
    ensures write_tears { WriteTears }
    ensures sync_settles { SyncSettles }
    ensures stretch_tears { StretchTears }
    ensures touches_tear { TouchesTear }
    ensures others_are_kept { OthersAreKept }
    ensures synced_is_read { SyncedIsRead }
    ensures stretch_widens { StretchWidens }
{}
