//! The laws of `specs/`. The function does nothing: its clauses are the laws.
ghost use Rattle.sn_snapshot_laws.specs.Reading.{SnapshotsReadAlike};
ghost use Rattle.sn_snapshot_laws.specs.Staying.{CrashesKeepFrozenTrees, EventsKeepFrozenTrees, LivesKeepFrozenTrees, RunsKeepFrozenTrees};

/// A frozen tree is unchanged until a call deletes its snapshot: over an event, over a run, over one that a crash cuts
/// short, and over lives of many. And who may read what in it is its own to say, whatever has become of the live tree.
///
/// Proved: A frozen tree is unchanged until a call deletes its snapshot: over each event, whatever mishap it has; over a
/// run; over a run that a crash cuts short, for whatever the next mount finds; and over lives of such runs.
/// Proved: A frozen tree says alone who may read what in it: whoever may search the live root gets the same answer for each
/// path in it by `stat`, `access`, `getacl`, `readdir` and an `open` that makes no file, refused or not, and reads the same
/// bytes, whatever has become of the live tree.
pub fn snapshot_laws()
    ensures events { EventsKeepFrozenTrees }
    ensures runs { RunsKeepFrozenTrees }
    ensures crashes { CrashesKeepFrozenTrees }
    ensures lives { LivesKeepFrozenTrees }
    ensures reads { SnapshotsReadAlike }
{}
