//! The laws that the definitions of `specs/` keep.
ghost use Rattle.sn_cp.specs.Counting.{CallsAreCounted, StepsAreCounted, StepsAreFew};
ghost use Rattle.sn_cp.specs.Showing.{DonePointsStand, LogKeepsTheStage, NextRootsOpen, OpeningShowsEither, OrdinaryPointsShow, PointsStayApart, StepsKeepWhatIsShown};

/// What is left of a point, step by step.
pub fn count_laws()
    ensures fewer { StepsAreCounted }
    ensures few { StepsAreFew }
    ensures calls { CallsAreCounted }
{}

/// What the steps leave of what the disk shows, what calls of the log between them leave of the point, and what it doesn't
/// touch.
///
/// Proved: A crash in a step before the gate's leaves the root that counts with its records, older and newer, on a disk of
/// the point's own size where no new block is one that the root reaches; so does one in writing blocks and map.
/// Proved: In the gate's opening a crash leaves that or the next root, and after `Ok` the next one, with the newer records
/// as its own, the new blocks, the words of its map, and what the old root reached as it was.
/// Proved: A call of the log between two steps leaves the point at its stage, and no step touches the superblock, the map of
/// the slot that counts, or the log.
pub fn shown_laws()
    ensures ordinary { OrdinaryPointsShow }
    ensures steps { StepsKeepWhatIsShown }
    ensures opening { OpeningShowsEither }
    ensures log { LogKeepsTheStage }
    ensures apart { PointsStayApart }
{}

/// What the next root means, once it is shown.
///
/// Proved: What shows the next root opens to what was built: to the tree that was frozen, with the records of its two epochs
/// on top, and to the snapshots of the old root; once the point is done, that root is sound in what is read.
pub fn next_laws()
    ensures opens { NextRootsOpen }
    ensures done { DonePointsStand }
{}
