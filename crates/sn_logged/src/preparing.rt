//! What is read and grown for a change before it is laid over.
ghost use Rattle.std.specs.Prelude.{◌≡◌, Some, IsTrue, IfOk};
ghost use Rattle.sn_limits.specs.Versions.{limits_of};
ghost use Rattle.sn_logged.specs.Laid.{CanBeLaid, IsPrepared};
ghost use Rattle.sn_model.specs.Changes.{apply};
ghost use Rattle.sn_model.specs.NameTree.{IsHierarchy};
ghost use Rattle.sn_model.specs.Tree.{Tree};
ghost use Rattle.sn_overlay_change.specs.Faults.{IfBelow};
ghost use Rattle.sn_walk.specs.Frame.{Leaves};

use crate::moving::{NameMoves, moves_of};
use sn_applies::{NamedTree, applies};
use sn_limits::Limits;
use sn_model::Change;
use sn_overlay::Overlay;
use sn_overlay_change::{LayerFault, of_change};
use std::alloc::Global;

/// A change that can be applied to what is seen, with all that it asks of it: what it does to names, and what it makes
/// different.
#[derive(Drop)]
pub struct PreparedChange {
    pub(crate) moves: NameMoves,
    pub(crate) newer: Overlay,
}

// What is prepared for a change that can be applied.
fn prepare_possible<T: NamedTree>(
    alloc: Global,
    limits: &Limits,
    tree: &mut T,
    change: &Change<'_>,
) -> Result<PreparedChange, LayerFault<T::Fault>>
    requires holds { T.holds tree.old }
    requires version { limits_of limits.now.version ≡ Some limits.now }
    ensures left { Leaves T.holds T.follows T.is_told T.shows tree.old tree.new }
    ensures found { IsTrue T.is_told → IsHierarchy (T.shows tree.old) → (after : Tree) → apply limits.now change.now (T.shows tree.old) ≡ Some after
        → IfOk result (λ p. CanBeLaid limits.now p (T.shows tree.old) change.now) }
    ensures cause { IfBelow result (λ f. T.causes tree.old tree.new f) }
{
    let moves = match moves_of(tree, change) {
        Ok(moves) => moves,
        Err(fault) => return Err(LayerFault::Below(fault)),
    };
    let newer = of_change(alloc, limits, tree, change)?;
    Ok(PreparedChange { moves, newer })
}

/// What is prepared for a change, `None` where it can't be applied.
pub(crate) fn prepare<T: NamedTree>(
    alloc: Global,
    limits: &Limits,
    tree: &mut T,
    change: &Change<'_>,
) -> Result<Option<PreparedChange>, LayerFault<T::Fault>>
    requires holds { T.holds tree.old }
    requires version { limits_of limits.now.version ≡ Some limits.now }
    ensures left { Leaves T.holds T.follows T.is_told T.shows tree.old tree.new }
    ensures found { IsTrue T.is_told → IsHierarchy (T.shows tree.old) → IfOk result (λ p. IsPrepared limits.now p (T.shows tree.old) change.now) }
    ensures cause { IfBelow result (λ f. T.causes tree.old tree.new f) }
{
    match applies(limits, tree, change) {
        Ok(true) => {}
        Ok(false) => return Ok(None),
        Err(fault) => return Err(LayerFault::Below(fault)),
    }
    match prepare_possible(alloc, limits, tree, change) {
        Ok(prepared) => Ok(Some(prepared)),
        Err(fault) => Err(fault),
    }
}
