//! Which messages are answered in one place.
ghost use Rattle.std.specs.Prelude.{◌≡◌};
ghost use Rattle.sn_serve.specs.Groups.{group_of};

use sn_fuse::Op;

/// Messages that are answered in one place.
#[derive(Clone, Copy, PartialEq, Eq)]
pub(crate) enum Group {
    /// Those on names.
    Names,
    /// Those on files that are opened.
    Files,
    /// Those on what a node is like.
    Attributes,
    /// Those on open directories.
    Directories,
    /// Those on no node, or that forget it, and those for which nothing is done.
    Mount,
}

/// Where a message is answered.
pub(crate) fn group_of(op: &Op<'_>) -> Group
    ensures { result ≡ group_of op.now }
{
    match op {
        Op::Lookup { .. }
        | Op::Symlink { .. }
        | Op::Mkdir { .. }
        | Op::Unlink { .. }
        | Op::Rmdir { .. }
        | Op::Rename { .. }
        | Op::Rename2 { .. }
        | Op::Link { .. }
        | Op::Access { .. } => Group::Names,
        Op::Mknod { .. }
        | Op::Open { .. }
        | Op::Create { .. }
        | Op::Read { .. }
        | Op::Write { .. }
        | Op::Release { .. } => Group::Files,
        Op::GetAttr { .. }
        | Op::SetAttr { .. }
        | Op::GetXattr { .. }
        | Op::SetXattr { .. }
        | Op::ListXattr { .. }
        | Op::RemoveXattr { .. } => Group::Attributes,
        Op::OpenDir { .. } | Op::ReadDir { .. } | Op::ReleaseDir { .. } => Group::Directories,
        Op::Forget { .. }
        | Op::BatchForget { .. }
        | Op::Statfs
        | Op::Init { .. }
        | Op::Flush { .. }
        | Op::Fsync { .. }
        | Op::FsyncDir { .. }
        | Op::Interrupt { .. } => Group::Mount,
    }
}
