//! The laws that the definitions of `specs/` keep.
ghost use Rattle.sn_run.specs.Causes.{OnlyItsEndFails};
ghost use Rattle.sn_run.specs.Laws.{CallsAreSmall, CallsFitOnBoth, LivesAreLives, NoFailureIsInvented, PointsAreFewSteps, StepsAreSmall, StepsAreSpent, StepsWrite, SyncsLeaveAll};

use sn_record::payloads_fit;

/// Runs, each from what a crash in the one before has left, are a life of the machine.
///
/// Proved: What a crash leaves of a run holds over lives too, each run of which begins from what a crash in the one before
/// has left.
pub fn crash_laws()
    ensures { LivesAreLives }
{}

/// Where the device failed in none of the events of a run, no event was refused for a failure.
///
/// Proved: Where the device failed in none of the events, none was refused for a failure.
pub fn no_failure_is_invented()
    ensures { NoFailureIsInvented }
{}

/// Where the device counted no failure in a run, each event that encountered one found the device at its
/// end. So did a first mount that failed for it, and a run that stopped, unless a restart lacked memory.
///
/// Proved: Where the device's count of failures is unchanged over a run, each failure that an event encountered was the device's
/// end; so was M6 of the first mount, and a run stopped for that, for memory at a restart, or because no root can follow for
/// the last unmount.
pub fn only_its_end_fails()
    ensures { OnlyItsEndFails }
{}

/// After a `sync` that is answered the newest root has all of the world, and so it is after a call on snapshots:
/// a crash loses nothing of it even where nothing of the log could be read.
///
/// Proved: After a `sync` that is answered, or a call on snapshots, the newest root has all of the world, whatever a crash
/// leaves: its tree is the live one, and nothing is logged on top of it.
pub fn sync_laws()
    ensures { SyncsLeaveAll }
{}

/// A call that needs no point makes at most the writes and the two syncs of the longest record. While a point is in
/// progress its root makes no call need another that fits on the root that counts.
///
/// Proved: A call that needs no point makes at most 131 writes and two syncs, however it is answered, and one that fits on
/// the root that counts fits on that of a point in progress too.
pub fn call_laws()
    ensures small { CallsAreSmall }
    ensures fits { CallsFitOnBoth }
{
    payloads_fit();
}

/// A step makes at most eight writes and a sync, however it is answered, and one that says that there is more
/// makes a write. A point has so many steps at most, and each that says that there is more takes one off them,
/// whatever calls come between.
///
/// Proved: A step makes at most eight writes and a sync, however it is answered, and one that says that there is more has
/// written something.
/// Proved: With the step that begins it a point takes at most as many steps as what changed needs new blocks, one for each
/// block of the map, and four; each step that says that there is more leaves one less, and no call between them does.
pub fn step_laws()
    ensures small { StepsAreSmall }
    ensures writes { StepsWrite }
    ensures few { PointsAreFewSteps }
    ensures spent { StepsAreSpent }
{}
