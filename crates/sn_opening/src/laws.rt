//! The laws that the definitions of `specs/` keep.
ghost use Rattle.sn_opening.specs.Covering.{CoversStandForTheLive, DroppingKeepsTheCover, OneMoreCovers, ReplayCovers};
ghost use Rattle.sn_opening.specs.Laws.{HalvesAreReplayedInTurn, OpensToOne, OpensToSettled, RunsLeaveTheirStates, ShownOpens, SnapshotsAreTheirImages, StandingIsOfTheReach};
ghost use Rattle.sn_opening.specs.LogLaws.{ClearingShows, NewerAppendOpensEither, NewerRecordsShow, NothingTwoOn, OlderAppendOpensEither, OlderRecordsShow};
ghost use Rattle.sn_opening.specs.PointLaws.{BeginShows, BlockIsReached, BlocksKeepWhatIsShown, DoneStands, LogKeepsThePoint, MapBlockIsReached, OpeningOpensEither, SyncStores};

/// What a disk opens to, and on what that depends.
///
/// Proved: A disk opens to one world at most, which is settled.
/// Proved: Under a snapshot's name is its image as it is, and no other name has one.
/// Proved: The records of the root's epoch come first, and after them those of the next.
/// Proved: What a root stands for depends on the blocks that it reaches, and what is shown opens to it.
pub fn opening_laws()
    ensures one { OpensToOne }
    ensures settled { OpensToSettled }
    ensures snapshots { SnapshotsAreTheirImages }
    ensures halves { HalvesAreReplayedInTurn }
    ensures reach { StandingIsOfTheReach }
    ensures shown { ShownOpens }
{}

/// What a mounted file system keeps of its log, call by call.
///
/// Proved: With changes that make of its tree one that covers the live tree, a root stands for that tree, settled; one more
/// change that is made to both, and a file that a close drops, keep that.
pub fn covering_laws()
    ensures stand { CoversStandForTheLive }
    ensures more { OneMoreCovers }
    ensures dropped { DroppingKeepsTheCover }
    ensures replayed { ReplayCovers }
{}

/// What a write to the log leaves of it.
///
/// Proved: A call that is logged, between points or between two steps of one, leaves the world from before it or the one
/// after it, at each moment; what an append can follow is shown.
/// Proved: While a mount clears the first place of its half, the disk shows the root alone.
/// Proved: Two epochs on, replay finds nothing in a half without a later record.
pub fn log_laws()
    ensures older { OlderAppendOpensEither }
    ensures newer { NewerAppendOpensEither }
    ensures older_show { OlderRecordsShow }
    ensures newer_show { NewerRecordsShow }
    ensures clearing { ClearingShows }
    ensures two { NothingTwoOn }
{}

/// What the steps of a point leave of it, and what calls between them leave of the point.
///
/// Proved: While a point begins, and while it writes blocks apart from what is shown, the disk shows the same.
/// Proved: The write of the next root's gate leaves the world of the old root or that of the next.
/// Proved: A call that is logged between two steps leaves what the point has on the disk.
pub fn point_laws()
    ensures begin { BeginShows }
    ensures blocks { BlocksKeepWhatIsShown }
    ensures opening { OpeningOpensEither }
    ensures log { LogKeepsThePoint }
{}

/// How far a point is, step by step.
///
/// Proved: Each step leads to the next stage; after the last one the next root counts, denotes what was frozen, and is
/// sound.
pub fn step_laws()
    ensures block { BlockIsReached }
    ensures map { MapBlockIsReached }
    ensures sync { SyncStores }
    ensures done { DoneStands }
{}

/// What a run of a mount leaves to a crash, over any list of events.
///
/// Proved: In a run, a crash at any moment leaves a state from the last acknowledged one on.
pub fn run_laws()
    ensures states { RunsLeaveTheirStates }
{}
