//! The laws that the definitions of `specs/` keep.
ghost use Rattle.sn_held.specs.Laws.{AppendsLeaveEither, AppendsRun, DropsLeaveFewer, DropsRun, ImagesAreOne, RunsShow};
ghost use Rattle.sn_held.specs.RoomLaws.{CallsThatFitArePaid, PointsBeginAnew};

/// What a disk is an image of.
///
/// Proved: Contents are an image of one world at most.
/// Proved: Whatever a crash leaves of a mount that runs is an image of its settled world: of a formatted disk whose newest
/// root is sound with its map, that opens to it, and whose log is charged no more than that root leaves free.
pub fn image_laws()
    ensures one { ImagesAreOne }
    ensures show { RunsShow }
{}

/// What is kept of the disk, call by call.
///
/// Proved: A call that is logged, in whichever half of the log, leaves at each moment an image of the settled world from
/// before it or after it, and once it is answered the mount runs over the one after.
/// Proved: What a close or a logout drops changes nothing of the disk.
/// Proved: A change that has room on top of what was charged is charged so that the log's charges, with one for each file
/// that the root's tree has without a name, are still no more than is free.
pub fn call_laws()
    ensures drops { DropsRun }
    ensures either { AppendsLeaveEither }
    ensures runs { AppendsRun }
    ensures fewer { DropsLeaveFewer }
{}

/// What is counted of room.
///
/// Proved: A call that fits leaves what is charged after it, with a charge for each parked file, within what is free.
/// Proved: After a whole point nothing is charged, and no dropped file is parked.
pub fn room_laws()
    ensures paid { CallsThatFitArePaid }
    ensures anew { PointsBeginAnew }
{}
