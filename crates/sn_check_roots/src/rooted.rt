//! The roots of a disk, in a row.
ghost use Rattle.std.specs.Prelude.{◌≡◌, ◌<◌, length, slice_index_or, IfNone, IfSome};
ghost use Rattle.sn_layout.specs.RootBody.{IsRootBody};
ghost use Rattle.sn_sound.specs.Maps.{Rooted as TheRooted, rooted_in};
ghost use Rattle.sn_check_roots.specs.Seen.{IsFirstSeen, NoneHasFileOf};

use sn_layout::{BlockTree, RootBody};

/// An inode file, with the bit that its root has in the map.
#[derive(Clone, Copy)]
pub(crate) struct Rooted {
    pub(crate) bit: u32,
    pub(crate) file: BlockTree,
}

/// How many roots there are.
pub(crate) fn root_count(root: &RootBody) -> usize
    ensures { result ≡ length (rooted_in root.now) }
{
    root.snapshots.as_slice().len() + 1
}

/// One of the roots. The first is the live one.
pub(crate) fn root_at(root: &RootBody, i: usize) -> Rooted
    requires fits { IsRootBody root.now }
    requires within { i < length (rooted_in root.now) }
    ensures root { (other : TheRooted) → slice_index_or (rooted_in root.now) i other ≡ record { bit = result.bit; inodes = result.file } }
    ensures bit { result.bit < 32 }
{
    if i == 0 {
        return Rooted {
            bit: 0,
            file: root.inode_file,
        };
    }
    let snapshot = &root.snapshots.as_slice()[i - 1];
    Rooted {
        bit: u32::from(snapshot.bit),
        file: snapshot.tree,
    }
}

/// The first root before one that has the same inode file. What that one reaches is the same, and as sound.
///
/// Proved, also of `mark_roots` and `link_roots`: A root is taken as seen exactly where an earlier one has the same inode
/// file, and then as the first of those: its marks are copied and its links aren't counted, and what is promised of all
/// roots holds of it too.
pub(crate) fn seen_before(root: &RootBody, i: usize) -> Option<usize>
    requires fits { IsRootBody root.now }
    requires within { i < length (rooted_in root.now) }
    ensures seen { IfSome result (λ j. IsFirstSeen (rooted_in root.now) i j) }
    ensures new { IfNone result (NoneHasFileOf (rooted_in root.now) i i) }
{
    let it = root_at(root, i);
    for j in 0..i {
        if root_at(root, j).file == it.file {
            return Some(j);
        }
    }
    None
}
