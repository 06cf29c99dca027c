//! The root that a consistency point writes after another one.
ghost use Rattle.std.specs.Prelude.{◌≡◌, ◌+◌, ◌^◌, ◌≤◌, ◌↔◌, Some, IsSome, IfSome};
ghost use Rattle.sn_limits.specs.Versions.{limits_of};
ghost use Rattle.sn_layout.specs.RootBody.{IsRootBody};
ghost use Rattle.sn_layout.specs.Snapshot.{AreSnapshots};
ghost use Rattle.sn_root.specs.Following.{epochs_of, following};

use sn_layout::{LARGEST_AGE, RootBody};
use sn_limits::Limits;

/// Which consistency point the root is of.
#[derive(Clone, Copy, PartialEq, Eq)]
pub enum PointKind {
    /// Calls that come while it runs are logged under the next epoch, and so it is the root's.
    Ordinary,
    /// What a mount writes after it replayed records of two epochs. The root's epoch is past both.
    Recovery,
}

impl PointKind {
    fn epochs(self) -> u64
        ensures { result ≡ epochs_of self }
    {
        match self {
            PointKind::Ordinary => 1,
            PointKind::Recovery => 2,
        }
    }
}

/// The root that follows on this one, in the version of these limits, with the next generation and a later
/// epoch, and with the same trees until its caller puts others in. There is none past a generation or an epoch
/// of 2^62. It can be written where the limits are those of a version, and its snapshots fit them.
///
/// Proved: The next root has the limits that it is given, and the next generation and epoch, up to 2^62.
pub fn next_root(root: &RootBody, limits: &Limits, kind: PointKind) -> Option<RootBody>
    ensures some { IsSome result ↔ ((root.now.generation + 1 ≤ 2 ^ 62) × (root.now.epoch + epochs_of kind ≤ 2 ^ 62)) }
    ensures value { IfSome result (λ next. next ≡ following kind limits.now root.now) }
    ensures fits { IsRootBody root.now → limits_of limits.now.version ≡ Some limits.now
        → AreSnapshots limits.now root.now.snapshots → IfSome result IsRootBody }
{
    let epochs = kind.epochs();
    if root.generation >= LARGEST_AGE || root.epoch > LARGEST_AGE - epochs {
        return None;
    }
    Some(RootBody {
        limits: *limits,
        generation: root.generation + 1,
        epoch: root.epoch + epochs,
        inode_file: root.inode_file,
        snapshots: root.snapshots.copy(),
    })
}
