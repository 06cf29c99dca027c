//! What lasts from one mount to the next.
ghost use Rattle.sn_times_file.specs.Laws.{LiveTimesLast, SnapshotTimesLast};

/// The times of objects last from a mount to the next.
///
/// Proved: A mount that takes what an earlier one left shows each live object with the times that it had there, and each object of a snapshot that was known,
/// once it is met by its name.
pub fn times_laws()
    ensures live { LiveTimesLast }
    ensures snapshots { SnapshotTimesLast }
{}
