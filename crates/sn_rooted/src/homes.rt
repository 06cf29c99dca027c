//! Which inode file has the live tree of a root, and which a frozen one.
ghost use Rattle.std.specs.Prelude.{◌≡◌};
ghost use Rattle.std.specs.Option.{option_map};
ghost use Rattle.sn_rooted.specs.Roots.{file_in, snapshot_named};

use sn_layout::{BlockTree, RootBody, Snapshot};
use sn_walk::Home;

// The inode file of the snapshot with a name.
fn frozen_file(snapshots: &[Snapshot], name: &[u8]) -> Option<BlockTree>
    ensures { result ≡ option_map (λ snapshot. snapshot.tree) (snapshot_named name.now snapshots.now) }
{
    for snapshot in snapshots {
        if name == snapshot.name.as_bytes() {
            return Some(snapshot.tree);
        }
    }
    None
}

/// The inode file of a tree of a root: of the live one, or of the snapshot with that name, `None` where no
/// snapshot has it.
///
/// Proved: The inode file of a tree is that of the live root or that of the snapshot with the name.
pub fn file_in(root: &RootBody, home: &Home) -> Option<BlockTree>
    ensures { result ≡ file_in root.now home.now }
{
    match home {
        Home::Live => Some(root.inode_file),
        Home::Frozen(name) => frozen_file(root.snapshots.as_slice(), name.as_bytes()),
    }
}
