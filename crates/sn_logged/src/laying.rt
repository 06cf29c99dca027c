//! A change laid over what is seen.
ghost use Rattle.std.specs.Prelude.{◌≡◌, ℕ, Some, IsTrue, IfOk, IfSome};
ghost use Rattle.sn_directories.specs.Told.{IsShown};
ghost use Rattle.sn_limits.specs.Versions.{limits_of};
ghost use Rattle.sn_limits.specs.declared.limits.Limits.{Limits as TheLimits};
ghost use Rattle.sn_logged.specs.Laid.{CanBeLaid, HasRoomFor, IsPrepared};
ghost use Rattle.sn_model.specs.Changes.{apply};
ghost use Rattle.sn_model.specs.Tree.{Tree};
ghost use Rattle.sn_model.specs.declared.change.Change.{Change as TheChange};
ghost use Rattle.sn_overlay.specs.Layers.{through};
ghost use Rattle.sn_overlay.specs.Merges.{merge};
ghost use Rattle.sn_overlay.specs.Overlays.{HasRoom, TakesRoom, layer_of};
ghost use Rattle.sn_overlay_change.specs.ChangeLayers.{layer_of_change};
ghost use Rattle.sn_overlay_change.specs.Faults.{IfBelow};
ghost use Rattle.sn_walk.specs.Frame.{Leaves};

use crate::moving::note_moves;
use crate::preparing::{PreparedChange, prepare};
use sn_directories::{Directories, KeepsNames, LoggedTree};
use sn_limits::Limits;
use sn_model::{Change, changes_keep_the_tree};
use sn_overlay::{Overlay, Through, merges_lie, merges_show_both};
use sn_overlay_change::LayerFault;
use std::alloc::Global;

// What is prepared for a change of what is seen, `None` where it can't be applied.
fn prepare_over<'x, B: KeepsNames>(
    alloc: Global,
    limits: &Limits,
    below: &'x mut B,
    overlay: &'x Overlay,
    directories: &'x Directories,
    change: &Change<'_>,
) -> Result<Option<PreparedChange>, LayerFault<B::Fault>>
    requires holds { B.holds below.old }
    requires version { limits_of limits.now.version ≡ Some limits.now }
    requires shown { IsTrue B.is_told → IsShown (layer_of overlay.now) (B.shows below.old) directories.now }
    ensures left { Leaves B.holds B.follows B.is_told B.shows below.old below.new }
    ensures found { IsTrue B.is_told → IfOk result (λ p. IsPrepared limits.now p (through (layer_of overlay.now) (B.shows below.old)) change.now) }
    ensures cause { IfBelow result (λ f. B.causes below.old below.new f) }
{
    let mut live = LoggedTree {
        shown: Through { overlay, below },
        directories,
    };
    prepare(alloc, limits, &mut live, change)
}

/// Reads and grows all that a change of what is seen asks for, where it can be applied under the limits: its layer, and
/// room for it in the overlay, and for so many drops besides. `None` where it can't be applied. Nothing that is seen changes,
/// and no room is lost, whatever the answer. A fault is one of the tree below, or of memory.
///
/// Proved, also of `commit_change`: All that reads, grows or may fail comes first, and leaves what is seen and the room that
/// there was, whatever the answer; to lay over what was prepared takes no memory, can't fail, and leaves that room.
pub fn prepare_change<B: KeepsNames>(
    alloc: Global,
    limits: &Limits,
    below: &mut B,
    overlay: &mut Overlay,
    directories: &Directories,
    change: &Change<'_>,
    drops: u16,
) -> Result<Option<PreparedChange>, LayerFault<B::Fault>>
    requires holds { B.holds below.old }
    requires version { limits_of limits.now.version ≡ Some limits.now }
    requires shown { IsTrue B.is_told → IsShown (layer_of overlay.old) (B.shows below.old) directories.now }
    ensures left { Leaves B.holds B.follows B.is_told B.shows below.old below.new }
    ensures layer { layer_of overlay.new ≡ layer_of overlay.old }
    ensures prepared { IsTrue B.is_told → IfOk result (λ p. IsPrepared limits.now p (through (layer_of overlay.old) (B.shows below.old)) change.now) }
    ensures room { IfOk result (λ p. IfSome p (λ prepared. HasRoomFor overlay.new prepared drops)) }
    ensures stays { TakesRoom overlay.old overlay.new (record { nodes = 0; names = 0; blocks = 0 }) }
    ensures cause { IfBelow result (λ f. B.causes below.old below.new f) }
{
    let Some(prepared) = prepare_over(alloc, limits, below, overlay, directories, change)? else {
        return Ok(None);
    };
    overlay.reserve_beside(&prepared.newer, drops)?;
    Ok(Some(prepared))
}

/// Lays a change that was prepared over what is seen, where there is room for it: then the tree that is seen is the one that
/// the change makes of it, and the table describes its directories. It takes no memory, and leaves room for as many drops as
/// there was besides the change. What the overlay makes different is then what it did, and what the change does besides.
///
/// Proved, also of `prepare_change`: A change is laid over a tree that is read exactly where it can be applied, and what is
/// seen is then the model's, by the given limits, of any version that is read; otherwise overlay and table are as they were.
/// Proved: What the overlay makes different after a change is what it did before, merged with exactly the layer of the
/// change.
/// Proved: Overlay and table are ready for the next change: the overlay lies over the tree, what is seen is a name tree, and
/// the table has its directories.
pub fn commit_change(prepared: PreparedChange, overlay: &mut Overlay, directories: &mut Directories)
    requires { HasRoomFor overlay.old prepared 0 }
    ensures shown { (limits : TheLimits) (below : Tree) (change : TheChange) → limits_of limits.version ≡ Some limits → IsShown (layer_of overlay.old) below directories.old → CanBeLaid limits prepared (through (layer_of overlay.old) below) change
        → IsShown (layer_of overlay.new) below directories.new }
    ensures laid { (limits : TheLimits) (below : Tree) (change : TheChange) → limits_of limits.version ≡ Some limits → IsShown (layer_of overlay.old) below directories.old → CanBeLaid limits prepared (through (layer_of overlay.old) below) change
        → apply limits change (through (layer_of overlay.old) below) ≡ Some (through (layer_of overlay.new) below) }
    ensures merged { (limits : TheLimits) (live : Tree) (change : TheChange) → CanBeLaid limits prepared live change → layer_of overlay.new ≡ merge (layer_of overlay.old) (layer_of_change live change) }
    ensures drops { (drops : ℕ) → HasRoomFor overlay.old prepared drops → HasRoom overlay.new (record { nodes = drops; names = 0; blocks = 0 }) }
{
    changes_keep_the_tree();
    merges_lie();
    merges_show_both();
    overlay.merge(prepared.newer);
    note_moves(directories, prepared.moves);
}
