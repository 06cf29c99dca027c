//! The laws that the definitions of `specs/` keep.
ghost use Rattle.sn_cp_progress.specs.Laws.{AppendsGoOn, AppendsLeaveEither, CallsFitOnNext, DropsGoOn, PointsBegin, PointsEnd, PointsFinish, StepsGoOn};

/// From its beginning to its last step a point leaves the world as it is, but for the snapshots that come with its root; and
/// what is logged between two steps is on top of the root that counts, whichever it is. What fits on the old one fits on the
/// next one too.
///
/// Proved: Once a point has begun, the mount runs on with it in progress: the old root counts still, with its records, and
/// the next epoch can be logged under. It leads to the live tree of the mount, or to that of a snapshot that is brought
/// back.
/// Proved: A crash at any moment of a step leaves an image of the settled world with all that was logged since the point
/// began, in the last step maybe with the snapshots of the point's root; each step but the last leaves the point at its next
/// stage.
/// Proved: After the last step, or all that are left in a row, the next root counts, with its snapshots, and with what was
/// logged since on top of it, and the mount is ready for another point. In a row they may lead to a snapshot's tree.
/// Proved: A call between two steps whose charge fits on the root that counts leaves the world before it or the one after
/// it, whichever root will count, and the point at its stage.
/// Proved: A call that fits on the root that counts fits on that of the point in progress too, with what was charged since
/// that began.
/// Proved: A file that a close or a logout drops changes nothing of disk and point.
pub fn progress_laws()
    ensures begins { PointsBegin }
    ensures steps { StepsGoOn }
    ensures ends { PointsEnd }
    ensures finishes { PointsFinish }
    ensures fits { CallsFitOnNext }
    ensures either { AppendsLeaveEither }
    ensures appends { AppendsGoOn }
    ensures drops { DropsGoOn }
{}
