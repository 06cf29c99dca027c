//! What a point that is asked for makes of the snapshots of a root.
ghost use Rattle.std.specs.Prelude.{◌≡◌, None, IfSome};
ghost use Rattle.sn_layout.specs.RootBody.{IsRootBody};
ghost use Rattle.sn_layout.specs.Snapshot.{with_snapshot};
ghost use Rattle.sn_model.specs.declared.outcome.AskedPoint.TheVariants.{Freezes, Restores, Thaws};
ghost use Rattle.sn_snap.specs.Catalogue.{others_than};
ghost use Rattle.sn_cp_held.specs.Snapshots.{FollowsBy, new_snapshot};
ghost use Rattle.sn_cp_whole.specs.Asking.{CanBeMade, CanBeMadeWith, HasSnapshot, IsStartFor, TakesOneMore, bit_in};

use sn_cp_build::{SnapshotBit, SnapshotEdit};
use sn_layout::{BlockTree, RootBody};
use sn_limits::SnapshotName;
use sn_model::AskedPoint;
use sn_snap::{add, find, free_bit, remove};

/// The least free bit, where no snapshot has the name and the version allows one more.
fn new_bit(root: &RootBody, name: &SnapshotName) -> Option<SnapshotBit>
    requires { IsRootBody root.now }
    ensures new { IfSome result (λ bit. TakesOneMore root.now.limits name.now bit root.now.snapshots) }
    ensures none { result ≡ None → CanBeMade (Freezes name.now) root.now.limits root.now.snapshots → ⊥ }
{
    if find(&root.snapshots, name).is_some() {
        return None;
    }
    let bit = free_bit(&root.snapshots, &root.limits)?;
    SnapshotBit::new(bit)
}

/// The bit of the snapshot that has the name.
fn own_bit(root: &RootBody, name: &SnapshotName) -> Option<SnapshotBit>
    requires { IsRootBody root.now }
    ensures own { IfSome result (λ bit. HasSnapshot name.now bit root.now.snapshots) }
    ensures none { result ≡ None → CanBeMade (Thaws name.now) root.now.limits root.now.snapshots → ⊥ }
{
    let snapshot = find(&root.snapshots, name)?;
    SnapshotBit::new(snapshot.bit)
}

/// What a build begins from, and what it is to make of the bits of snapshots.
#[derive(Drop)]
pub(crate) struct Start {
    pub edit: SnapshotEdit,
    pub inode_file: BlockTree,
}

/// A build of the live tree.
fn live_start(root: &RootBody, edit: SnapshotEdit) -> Start
    ensures { result ≡ record { edit = edit; inode_file = root.now.inode_file } }
{
    Start {
        edit,
        inode_file: root.inode_file,
    }
}

/// A build of the tree of the snapshot that has the name.
fn frozen_start(root: &RootBody, name: &SnapshotName) -> Option<Start>
    requires { IsRootBody root.now }
    ensures fits { IfSome result (λ start. IsStartFor (Restores name.now) root.now start.edit start.inode_file) }
    ensures none { result ≡ None → CanBeMade (Restores name.now) root.now.limits root.now.snapshots → ⊥ }
{
    let snapshot = find(&root.snapshots, name)?;
    let bit = SnapshotBit::new(snapshot.bit)?;
    Some(Start {
        edit: SnapshotEdit::Restore(bit),
        inode_file: snapshot.tree,
    })
}

/// Where a build begins for what is asked for, if it can be made of the snapshots of this root.
pub(crate) fn start_for(root: &RootBody, asked: &AskedPoint) -> Option<Start>
    requires { IsRootBody root.now }
    ensures fits { IfSome result (λ start. IsStartFor asked.now root.now start.edit start.inode_file) }
    ensures none { result ≡ None → CanBeMade asked.now root.now.limits root.now.snapshots → ⊥ }
{
    match asked {
        AskedPoint::Unasked | AskedPoint::Plain => Some(live_start(root, SnapshotEdit::None)),
        AskedPoint::Freezes(name) => {
            Some(live_start(root, SnapshotEdit::Freeze(new_bit(root, name)?)))
        }
        AskedPoint::Thaws(name) => {
            Some(live_start(root, SnapshotEdit::Thaw(own_bit(root, name)?)))
        }
        AskedPoint::Restores(name) => frozen_start(root, name),
    }
}

/// The bit of an edit, 0 where it has none.
pub(crate) fn bit_in(edit: &SnapshotEdit) -> u8
    ensures { result ≡ bit_in edit.now }
{
    match edit {
        SnapshotEdit::None => 0,
        SnapshotEdit::Freeze(bit) | SnapshotEdit::Thaw(bit) | SnapshotEdit::Restore(bit) => {
            bit.number()
        }
    }
}

/// The root with one more snapshot, of its own inode file.
fn with_one_more(root: RootBody, name: &SnapshotName, bit: u8) -> RootBody
    requires body { IsRootBody root }
    requires new { TakesOneMore root.limits name.now bit root.snapshots }
    ensures is { result ≡ record root { snapshots = with_snapshot (new_snapshot name.now bit root) root.snapshots } }
    ensures body { IsRootBody result }
{
    let tree = root.inode_file;
    let snapshots = add(root.snapshots, name.copy(), bit, tree);
    RootBody { snapshots, ..root }
}

/// The root without the snapshot that has the name.
fn with_one_less(root: RootBody, name: &SnapshotName) -> RootBody
    requires { IsRootBody root }
    ensures is { result ≡ record root { snapshots = others_than name.now root.snapshots } }
    ensures body { IsRootBody result }
{
    let snapshots = remove(root.snapshots, name);
    RootBody { snapshots, ..root }
}

/// The root with the snapshots that are asked for, of which a new one has this bit and the root's inode file.
pub(crate) fn with_snapshots(root: RootBody, asked: &AskedPoint, bit: u8) -> RootBody
    requires body { IsRootBody root }
    requires bit { CanBeMadeWith asked.now bit root.limits root.snapshots }
    ensures is { result ≡ record root { snapshots = result.snapshots } }
    ensures snapshots { FollowsBy asked.now bit root result }
    ensures body { IsRootBody result }
{
    match asked {
        AskedPoint::Unasked | AskedPoint::Plain | AskedPoint::Restores(_) => root,
        AskedPoint::Freezes(name) => with_one_more(root, name, bit),
        AskedPoint::Thaws(name) => with_one_less(root, name),
    }
}
