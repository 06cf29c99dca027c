//! When what is wanted of a tree ends at its size.
ghost use Rattle.sn_tree.specs.Laws.{GrownTreesEnd, CutTreesEnd, EndedTreesHaveEndedPointers};

/// Where the dirty blocks end at the new size, so does what is wanted of a tree that doesn't shrink, and
/// of one of which whole blocks stay: a block that a cut goes through has to be dirty, or a hole. And a tree
/// that ends at its size is one that `Inode::is_valid` and the record of an inode take.
///
/// Proved: A tree that ends at its size is one that an inode's record takes.
pub fn plan_laws()
    ensures grown { GrownTreesEnd }
    ensures cut { CutTreesEnd }
    ensures pointers { EndedTreesHaveEndedPointers }
{}
