//! Which calls are decided in one place. A function pays at its entry for all outcomes that it may build, each of a
//! kilobyte, so that one for all calls would be slow.
ghost use Rattle.std.specs.Prelude.{◌≡◌};
ghost use Rattle.sn_core_decide.specs.Groups.{group_of};

use sn_model::Call;

/// Calls that are decided in one place.
#[derive(Clone, Copy, PartialEq, Eq)]
pub(crate) enum Group {
    /// Those of sessions, and of descriptors without the bytes of their files. They ask nothing of the trees.
    Sessions,
    /// Those of a node that a path names.
    Nodes,
    /// Those that list names or exchange them.
    Names,
    /// Those that open files, read and write them.
    Files,
    /// Those of snapshots.
    Snapshots,
}

/// Where a call is decided.
pub(crate) fn group_of(call: &Call) -> Group
    ensures { result ≡ group_of call.now }
{
    match call {
        Call::Login { .. }
        | Call::Logout
        | Call::Umask { .. }
        | Call::Close { .. }
        | Call::Seek { .. }
        | Call::Ftruncate { .. }
        | Call::Sync => Group::Sessions,
        Call::Mkdir { .. }
        | Call::Chmod { .. }
        | Call::Chown { .. }
        | Call::Stat { .. }
        | Call::Access { .. }
        | Call::GetAcl { .. }
        | Call::SetAcl { .. } => Group::Nodes,
        Call::Rmdir { .. }
        | Call::Unlink { .. }
        | Call::Link { .. }
        | Call::Rename { .. }
        | Call::Readdir { .. } => Group::Names,
        Call::Open { .. } | Call::Read { .. } | Call::Write { .. } => Group::Files,
        Call::SnapCreate { .. }
        | Call::SnapDelete { .. }
        | Call::SnapRestore { .. }
        | Call::SnapList => Group::Snapshots,
    }
}
