//! New blocks of a directory, for the names that there was no room for.
ghost use Rattle.std.specs.Prelude.{◌≡◌, ℕ, ◌+◌, ◌++◌, ◌≤◌, ◌<◌, ◌^◌, Bool, true, List, [], ◌∷◌, Contains, length, is_some, IsTrue, IfOk};
ghost use Rattle.sn_layout.specs.declared.tree.BlockTree.{BlockTree as TheTree};
ghost use Rattle.sn_layout_node.specs.Directory.{Link, IsDirectoryBlock};
ghost use Rattle.sn_ondisk.specs.Trees.{Store};
ghost use Rattle.sn_image.specs.Names.{names_in};
ghost use Rattle.sn_dir_change.specs.Changes.{AreLinkChanges, IsChange};
ghost use Rattle.sn_dir_change.specs.Through.{IsFilled};
ghost use Rattle.sn_dir_change.specs.UnderWay.{AreFull, IsLinkFrom, IsUnderWay};
ghost use Rattle.sn_dir_change.specs.declared.name_change.NameChange.{NameChange as TheChange};

use crate::NameChange;
use crate::amend::put;
use crate::pass::put_waiting;
use crate::through::push_dirty;
use sn_layout::{BLOCK_SIZE, Block};
use sn_layout_node::DirectoryBlock;
use sn_tree::DirtyBlock;
use std::alloc::{AllocError, Global};
use std::collections::VecDeque;

// A block of one name, and of as many of those that wait as there is room for.
fn filled(change: &NameChange<'_>, waiting: &mut Vec<NameChange<'_>>) -> Block
    requires change { IsChange change.now }
    requires waiting { AreLinkChanges waiting.old.items }
    ensures way { (changes : List TheChange) (names old : List Link)
        → IsUnderWay changes [] (waiting.old.items ++ change.now ∷ []) names names old
        → IsUnderWay changes [] waiting.new.items (names ++ names_in result) (names ++ names_in result) old }
    ensures from { (link : Link) → Contains (names_in result) link
        → IsLinkFrom (waiting.old.items ++ change.now ∷ []) [] link }
    ensures listed { (change : TheChange) → Contains waiting.new.items change → Contains waiting.old.items change }
    ensures fewer { length waiting.new.items ≤ length waiting.old.items }
    ensures full { AreFull waiting.new.items (names_in result) }
    ensures some { is_some change.now.number ≡ true → 0 < length (names_in result) }
    ensures waiting { AreLinkChanges waiting.new.items }
    ensures spelled { IsDirectoryBlock result }
{
    let mut block = [0; BLOCK_SIZE];
    DirectoryBlock::clear(&mut block);
    put(&mut block, change);
    put_waiting(&mut block, BLOCK_SIZE, waiting);
    block
}

/// Puts the names that wait into blocks after the others, and answers how many blocks there are then.
pub(crate) fn fill_blocks(
    alloc: Global,
    first: u64,
    waiting: &mut Vec<NameChange<'_>>,
    dirty: &mut VecDeque<DirtyBlock>,
) -> Result<u64, AllocError>
    requires waiting { AreLinkChanges waiting.old.items }
    requires room { first + length waiting.old.items < 2 ^ 52 }
    ensures filled { (told : Bool) (s : Store) (tree : TheTree) (changes : List TheChange) (bound : ℕ)
        → IsFilled (IsTrue told) s tree changes bound first dirty.old.items waiting.old.items
        → IfOk result (λ count. IsFilled (IsTrue told) s tree changes bound count dirty.new.items []) }
{
    let mut count = first;
    while let Some(change) = waiting.pop() {
        let block = filled(&change, waiting);
        push_dirty(alloc, dirty, count, block)?;
        count += 1;
    }
    Ok(count)
}
