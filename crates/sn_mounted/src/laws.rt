//! What was done is part of a run.
ghost use Rattle.sn_mounted.specs.Runs.{DidIsRun, NoMissIsInvented};

/// The acts of a server are part of a run.
///
/// Proved: What a server does with a mounted file system is part of a run of the machine, whose calls are the server's, in their order.
pub fn what_is_done_is_a_run()
    ensures { DidIsRun }
{}

/// Looks fail to read where the device fails.
///
/// Proved: Where the device counted no failure and hasn't ended, what a server does with a mounted file system doesn't stop it, and no look of it fails to read.
pub fn no_miss_is_invented()
    ensures { NoMissIsInvented }
{}
