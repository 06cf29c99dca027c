//! The catalogue with one snapshot more or less.
ghost use Rattle.std.specs.Prelude.{◌≡◌, ◌<◌, ◌≤◌, length, None, IsTrue};
ghost use Rattle.std.specs.FinMap as map;
ghost use Rattle.sn_limits.specs.declared.limits.Limits.{Limits};
ghost use Rattle.sn_layout.specs.Snapshot.{AreSnapshots, has_no_bit, with_snapshot};
ghost use Rattle.sn_snap.specs.Catalogue.{IsCatalogue, catalogue, others_than};

use crate::finding::index_of;
use sn_layout::{BlockTree, SNAPSHOT_ROOM, Snapshot, Snapshots};
use sn_limits::SnapshotName;

/// The same with one more snapshot, at the index of its bit. A root body that held them holds these, where its version
/// allows one more and has the bit.
///
/// Proved, also of `remove` and `root_bodies_stay`: A new snapshot is put in the place of its bit, which inserts its name;
/// taking one away removes its name; a root body that held the snapshots holds these.
pub fn add(mut snapshots: Snapshots, name: SnapshotName, bit: u8, tree: BlockTree) -> Snapshots
    requires catalogue { IsCatalogue snapshots }
    requires room { length snapshots < SNAPSHOT_ROOM }
    requires from_one { 1 ≤ bit }
    requires new_bit { IsTrue (has_no_bit bit snapshots) }
    requires new_name { map.get (catalogue snapshots) name ≡ None }
    ensures list { result ≡ with_snapshot (record { bit = bit; name = name; tree = tree }) snapshots }
    ensures entries { catalogue result ≡ map.insert (catalogue snapshots) name (record { bit = bit; tree = tree }) }
    ensures catalogue { IsCatalogue result }
    ensures held { (limits : Limits) → AreSnapshots limits snapshots → length snapshots < limits.snapshots
        → bit ≤ limits.largest_bit → AreSnapshots limits result }
{
    tree.fits();
    name.as_bytes();
    snapshots.insert(Snapshot { bit, name, tree });
    snapshots
}

/// The same without the snapshot that has the name, if one has it. A root body that held them holds these.
pub fn remove(mut snapshots: Snapshots, name: &SnapshotName) -> Snapshots
    requires { IsCatalogue snapshots }
    ensures list { result ≡ others_than name.now snapshots }
    ensures entries { catalogue result ≡ map.remove (catalogue snapshots) name.now }
    ensures catalogue { IsCatalogue result }
    ensures held { (limits : Limits) → AreSnapshots limits snapshots → AreSnapshots limits result }
{
    if let Some(index) = index_of(snapshots.as_slice(), name) {
        snapshots.remove(index);
    }
    snapshots
}
