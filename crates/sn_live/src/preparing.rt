//! What is read and grown for a change of a live tree before it is made.
ghost use Rattle.std.specs.Prelude.{◌≡◌, ◌≤◌, ◌^◌, Some, IsTrue, IfErr, IfOk, IfSome};
ghost use Rattle.sn_directories.specs.Told.{IsShown};
ghost use Rattle.sn_live.specs.Nodes.{node_moves_of};
ghost use Rattle.sn_limits.specs.Versions.{limits_of};
ghost use Rattle.sn_limits.specs.declared.limits.Limits.{Limits as TheLimits};
ghost use Rattle.sn_live.specs.Prepared.{CanBeMade, IsPrepared, LosesAtMost};
ghost use Rattle.sn_logged.specs.Laid as laid;
ghost use Rattle.sn_model.specs.Changes.{apply};
ghost use Rattle.sn_model.specs.Charges.{charge_for};
ghost use Rattle.sn_model.specs.Tree.{Tree};
ghost use Rattle.sn_model.specs.declared.change.Change.{Change as TheChange};
ghost use Rattle.sn_overlay.specs.Layers.{through};
ghost use Rattle.sn_overlay.specs.Overlays.{TakesRoom, layer_of};
ghost use Rattle.sn_overlay.specs.Seen.{LiesOver};
ghost use Rattle.sn_overlay_change.specs.Faults.{IfBelow};
ghost use Rattle.sn_walk.specs.Frame.{Leaves};

use crate::nodes::{NodeMoves, lost_of, node_moves_of};
use sn_directories::{Directories, KeepsNames, LoggedTree};
use sn_limits::Limits;
use sn_logged::{PreparedChange, change_charge, prepare_change};
use sn_model::Change;
use sn_overlay::{Overlay, Through};
use sn_overlay_change::LayerFault;
use std::alloc::Global;

/// A change that can be made of a live tree, with all that it asks of it.
#[derive(Drop)]
pub struct PreparedLive {
    pub(crate) change: PreparedChange,
    pub(crate) nodes: NodeMoves,
}

impl PreparedLive {
    /// The file that loses its last name by the change, if one does.
    pub fn lost(&self) -> Option<u16>
        ensures { (limits : TheLimits) (tree after : Tree) (change : TheChange) → limits_of limits.version ≡ Some limits → CanBeMade limits self.now tree change → apply limits change tree ≡ Some after → LosesAtMost tree after result }
    {
        lost_of(self.nodes)
    }
}

// What a change does to nodes of what is shown.
fn moves_over<'x, B: KeepsNames>(
    below: &'x mut B,
    overlay: &'x Overlay,
    directories: &'x Directories,
    change: &Change<'_>,
) -> Result<NodeMoves, B::Fault>
    requires holds { B.holds below.old }
    requires shown { IsTrue B.is_told → IsShown (layer_of overlay.now) (B.shows below.old) directories.now }
    ensures left { Leaves B.holds B.follows B.is_told B.shows below.old below.new }
    ensures found { IsTrue B.is_told → IfOk result (λ moves. moves ≡ node_moves_of (through (layer_of overlay.now) (B.shows below.old)) change.now) }
    ensures cause { IfErr result (λ f. B.causes below.old below.new f) }
{
    let mut live = LoggedTree {
        shown: Through { overlay, below },
        directories,
    };
    node_moves_of(&mut live, change)
}

/// What is prepared for a change of what is seen through an overlay, with room for it there, and for so many drops.
fn prepare_over<B: KeepsNames>(
    alloc: Global,
    limits: &Limits,
    below: &mut B,
    overlay: &mut Overlay,
    directories: &Directories,
    change: &Change<'_>,
    drops: u16,
) -> Result<Option<PreparedLive>, LayerFault<B::Fault>>
    requires holds { B.holds below.old }
    requires version { limits_of limits.now.version ≡ Some limits.now }
    requires shown { IsTrue B.is_told → IsShown (layer_of overlay.old) (B.shows below.old) directories.now }
    ensures left { Leaves B.holds B.follows B.is_told B.shows below.old below.new }
    ensures layer { layer_of overlay.new ≡ layer_of overlay.old }
    ensures prepared { IsTrue B.is_told → IfOk result (λ p. IsPrepared limits.now p (through (layer_of overlay.old) (B.shows below.old)) change.now) }
    ensures room { IfOk result (λ p. IfSome p (λ prepared. laid.HasRoomFor overlay.new prepared.change drops)) }
    ensures stays { TakesRoom overlay.old overlay.new (record { nodes = 0; names = 0; blocks = 0 }) }
    ensures cause { IfBelow result (λ f. B.causes below.old below.new f) }
{
    let Some(laid) = prepare_change(alloc, limits, below, overlay, directories, change, drops)?
    else {
        return Ok(None);
    };
    match moves_over(below, overlay, directories, change) {
        Ok(nodes) => Ok(Some(PreparedLive {
            change: laid,
            nodes,
        })),
        Err(fault) => Err(LayerFault::Below(fault)),
    }
}

/// What is prepared for a change of what is seen through two overlays, `None` where it can't be applied.
pub(crate) fn prepare_through<'x, B: KeepsNames>(
    alloc: Global,
    limits: &Limits,
    below: &'x mut B,
    bottom: &'x Overlay,
    top: &mut Overlay,
    directories: &Directories,
    change: &Change<'_>,
    drops: u16,
) -> Result<Option<PreparedLive>, LayerFault<B::Fault>>
    requires holds { B.holds below.old }
    requires version { limits_of limits.now.version ≡ Some limits.now }
    requires lies { IsTrue B.is_told → LiesOver (layer_of bottom.now) (B.shows below.old) }
    requires shown { IsTrue B.is_told → IsShown (layer_of top.old) (through (layer_of bottom.now) (B.shows below.old)) directories.now }
    ensures left { Leaves B.holds B.follows B.is_told B.shows below.old below.new }
    ensures layer { layer_of top.new ≡ layer_of top.old }
    ensures prepared { IsTrue B.is_told → IfOk result (λ p. IsPrepared limits.now p (through (layer_of top.old) (through (layer_of bottom.now) (B.shows below.old))) change.now) }
    ensures room { IfOk result (λ p. IfSome p (λ prepared. laid.HasRoomFor top.new prepared.change drops)) }
    ensures stays { TakesRoom top.old top.new (record { nodes = 0; names = 0; blocks = 0 }) }
    ensures cause { IfBelow result (λ f. B.causes below.old below.new f) }
{
    let mut shown = Through {
        overlay: bottom,
        below,
    };
    prepare_over(alloc, limits, &mut shown, top, directories, change, drops)
}

/// What a change of what is seen through two overlays is charged.
pub(crate) fn charge_through<'x, B: KeepsNames>(
    limits: &Limits,
    below: &'x mut B,
    bottom: &'x Overlay,
    top: &Overlay,
    directories: &Directories,
    change: &Change<'_>,
) -> Result<u128, B::Fault>
    requires holds { B.holds below.old }
    requires version { limits_of limits.now.version ≡ Some limits.now }
    requires lies { IsTrue B.is_told → LiesOver (layer_of bottom.now) (B.shows below.old) }
    requires shown { IsTrue B.is_told → IsShown (layer_of top.now) (through (layer_of bottom.now) (B.shows below.old)) directories.now }
    ensures left { Leaves B.holds B.follows B.is_told B.shows below.old below.new }
    ensures exact { IsTrue B.is_told → IfOk result (λ n. n ≡ charge_for limits.now (through (layer_of top.now) (through (layer_of bottom.now) (B.shows below.old))) change.now) }
    ensures few { IfOk result (λ n. n ≤ 2 ^ 64) }
    ensures cause { IfErr result (λ f. B.causes below.old below.new f) }
{
    let mut shown = Through {
        overlay: bottom,
        below,
    };
    change_charge(limits, &mut shown, top, directories, change)
}
