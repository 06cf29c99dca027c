//! What follows from the answers.
ghost use Rattle.sn_tree_read.specs.Laws.{PartsAreCutOut, ReachedPathsLie, ReachedBlocksLie};

/// On a sound image a part that is read is cut out of the whole, and `Damaged` is never answered.
///
/// Proved: On a sound image a part that is read is cut out of the whole, and `Damaged` is never answered.
pub fn read_laws()
    ensures parts { PartsAreCutOut }
    ensures paths { ReachedPathsLie }
    ensures blocks { ReachedBlocksLie }
{}
