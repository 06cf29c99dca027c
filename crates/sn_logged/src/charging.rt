//! What a change is charged.
ghost use Rattle.std.specs.Prelude.{◌≡◌, ◌+◌, ◌*◌, ◌≤◌, ◌^◌, Some, IsTrue, IfErr, IfOk, if◌then◌else◌};
ghost use Rattle.std.specs.FinMap as map;
ghost use Rattle.sn_directories.specs.Told.{IsShown};
ghost use Rattle.sn_limits.specs.Versions.{limits_of};
ghost use Rattle.sn_model.specs.Charges.{charge_for, file_under};
ghost use Rattle.sn_model.specs.Tree.{link_to};
ghost use Rattle.sn_model.specs.declared.link.Link.{Link};
ghost use Rattle.sn_overlay.specs.Layers.{through};
ghost use Rattle.sn_overlay.specs.Overlays.{layer_of};
ghost use Rattle.sn_walk.specs.Frame.{Leaves};

use sn_applies::NamedTree;
use sn_core_decide_rules::{
    attributes_charge, blocks_spanned, name_charge, rename_charge, size_charge, unlink_charge,
    write_charge,
};
use sn_directories::{Directories, KeepsNames, LoggedTree};
use sn_limits::{Kind, Limits};
use sn_model::Change;
use sn_overlay::{Overlay, Through};

// Whether a number is a file's.
fn is_file<T: NamedTree>(tree: &mut T, number: u16) -> Result<bool, T::Fault>
    requires { T.holds tree.old }
    ensures left { Leaves T.holds T.follows T.is_told T.shows tree.old tree.new }
    ensures found { IsTrue T.is_told → (link : Link) → map.get (T.shows tree.old).links link ≡ Some number → IfOk result (λ b. file_under (T.shows tree.old) link ≡ (if b then 1 else 0)) }
    ensures cause { IfErr result (λ f. T.causes tree.old tree.new f) }
{
    match tree.node(number) {
        Ok(Some(node)) => Ok(node.kind == Kind::File),
        Ok(None) => Ok(false),
        Err(fault) => Err(fault),
    }
}

// Whether a name of a directory is a file's.
fn is_file_under<T: NamedTree>(tree: &mut T, directory: u16, name: &[u8]) -> Result<bool, T::Fault>
    requires { T.holds tree.old }
    ensures left { Leaves T.holds T.follows T.is_told T.shows tree.old tree.new }
    ensures found { IsTrue T.is_told → IfOk result (λ b. file_under (T.shows tree.old) (link_to directory name.now) ≡ (if b then 1 else 0)) }
    ensures cause { IfErr result (λ f. T.causes tree.old tree.new f) }
{
    match tree.number(directory, name)? {
        Some(number) => is_file(tree, number),
        None => Ok(false),
    }
}

// A file that loses a name may stay without one, which is charged besides the change.
fn remove_charge<T: NamedTree>(
    limits: &Limits,
    tree: &mut T,
    directory: u16,
    name: &[u8],
) -> Result<u128, T::Fault>
    requires { T.holds tree.old }
    ensures left { Leaves T.holds T.follows T.is_told T.shows tree.old tree.new }
    ensures exact { IsTrue T.is_told → IfOk result (λ n. n ≡ (2 + file_under (T.shows tree.old) (link_to directory name.now)) * limits.now.inode_charge + limits.now.block_charge) }
    ensures most { IfOk result (λ n. n ≤ 3 * limits.now.inode_charge + limits.now.block_charge) }
    ensures cause { IfErr result (λ f. T.causes tree.old tree.new f) }
{
    let is_file = is_file_under(tree, directory, name)?;
    let charge = if is_file {
        unlink_charge(limits)
    } else {
        name_charge(limits)
    };
    Ok(u128::from(charge))
}

// The blocks that are charged for a change of a tree. It looks a name up at most.
fn charge<T: NamedTree>(
    limits: &Limits,
    tree: &mut T,
    change: &Change<'_>,
) -> Result<u128, T::Fault>
    requires { T.holds tree.old }
    ensures left { Leaves T.holds T.follows T.is_told T.shows tree.old tree.new }
    ensures exact { IsTrue T.is_told → IfOk result (λ n. n ≡ charge_for limits.now (T.shows tree.old) change.now) }
    ensures most { IfOk result (λ n. n ≤ 5 * limits.now.inode_charge + limits.now.block_charge * 2 ^ 53) }
    ensures cause { IfErr result (λ f. T.causes tree.old tree.new f) }
{
    match change {
        Change::Make { .. } | Change::AddLink { .. } => Ok(u128::from(name_charge(limits))),
        Change::Remove { directory, name } => {
            remove_charge(limits, tree, *directory, name.as_slice())
        }
        Change::Rename { .. } => Ok(u128::from(rename_charge(limits))),
        Change::Write { offset, bytes, .. } => Ok(write_charge(
            limits,
            blocks_spanned(*offset, bytes.as_slice().len()),
        )),
        Change::SetSize { .. } => Ok(u128::from(size_charge(limits))),
        Change::SetAttributes { .. } => Ok(u128::from(attributes_charge(limits))),
    }
}

/// The blocks that are charged for a change of what is seen, by limits of any version that is read. It looks a name up at
/// most; a fault is one of the tree below.
///
/// Proved: What a change of a tree that is read is charged is the model's, by the given limits, of any version that is read.
pub fn change_charge<'x, B: KeepsNames>(
    limits: &Limits,
    below: &'x mut B,
    overlay: &'x Overlay,
    directories: &'x Directories,
    change: &Change<'_>,
) -> Result<u128, B::Fault>
    requires holds { B.holds below.old }
    requires version { limits_of limits.now.version ≡ Some limits.now }
    requires shown { IsTrue B.is_told → IsShown (layer_of overlay.now) (B.shows below.old) directories.now }
    ensures left { Leaves B.holds B.follows B.is_told B.shows below.old below.new }
    ensures exact { IsTrue B.is_told → IfOk result (λ n. n ≡ charge_for limits.now (through (layer_of overlay.now) (B.shows below.old)) change.now) }
    ensures few { IfOk result (λ n. n ≤ 2 ^ 64) }
    ensures cause { IfErr result (λ f. B.causes below.old below.new f) }
{
    let mut live = LoggedTree {
        shown: Through { overlay, below },
        directories,
    };
    charge(limits, &mut live, change)
}
