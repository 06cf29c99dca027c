//! The names, sorted.
ghost use Rattle.std.specs.Prelude.{◌≡◌, position};
ghost use Rattle.std.specs.Cmp.Lexicographic.{slice_cmp};
ghost use Rattle.std.specs.FinMap as map;
ghost use Rattle.std.specs.List.{list_any};
ghost use Rattle.std.specs.Ordering.{is_gt, nat_cmp};
ghost use Rattle.std.specs.Str.{bytes_eq};
ghost use Rattle.sn_snap.specs.Catalogue.{catalogue};

use arrayvec::ArrayVec;
use sn_layout::{SNAPSHOT_ROOM, Snapshots};
use sn_limits::SnapshotName;

/// The names of the snapshots, sorted by their bytes, each once.
///
/// Proved: The names are all of them, sorted by their bytes, each once.
pub fn list(snapshots: &Snapshots) -> ArrayVec<SnapshotName, SNAPSHOT_ROOM>
    ensures { result.items ≡ map.keys (catalogue snapshots.now) }
{
    let mut names = ArrayVec::new();
    for snapshot in snapshots.as_slice() {
        if is_among(&names, &snapshot.name) {
            continue;
        }
        let index = first_greater(&names, &snapshot.name).unwrap_or(names.len());
        names.insert(index, snapshot.name.copy());
    }
    names
}

// Whether a name is one of the names.
fn is_among(names: &[SnapshotName], name: &SnapshotName) -> bool
    ensures { result ≡ list_any (bytes_eq name.now) names.now }
{
    let name = name.as_bytes();
    names.iter().any(|other| name == other.as_bytes())
}

// Where the first of the names is that is greater.
fn first_greater(names: &[SnapshotName], name: &SnapshotName) -> Option<usize>
    ensures { result ≡ position (λ other. is_gt (slice_cmp nat_cmp other name.now)) names.now }
{
    let name = name.as_bytes();
    names
        .iter()
        .position(|other| other.as_bytes().cmp(name).is_gt())
}
