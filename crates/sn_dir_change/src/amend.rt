//! The names of one block.
ghost use Rattle.std.specs.Prelude.{◌≡◌, ◌+◌, ◌++◌, ◌≤◌, ◌<◌, true, false, length, IsTrue, is_some};
ghost use Rattle.sn_layout_node.specs.Directory.{AreLinks, IsDirectoryBlock, links_bytes, number_of, without};
ghost use Rattle.sn_image.specs.Names.{names_in};
ghost use Rattle.sn_dir_change.specs.Changes.{IsChange, link_for};
ghost use Rattle.sn_dir_change.specs.NameMarks.{AreMarked};

use crate::NameChange;
use crate::name_marks::{MarkedChange, NameMarks};
use sn_layout::Block;
use sn_layout_node::DirectoryBlock;

// Takes a name out of a block, or sets it in its place. `false` where the block doesn't have it.
pub(crate) fn amend(block: &mut Block, change: &NameChange<'_>) -> bool
    requires block { IsDirectoryBlock block.old }
    requires change { IsChange change.now }
    ensures stood { result ≡ is_some (number_of change.now.name.now (names_in block.old)) }
    ensures amended { IsTrue result → names_in block.new
        ≡ without change.now.name.now (names_in block.old) ++ link_for change.now }
    ensures none { result ≡ false → block.new ≡ block.old }
    ensures still { IsDirectoryBlock block.new }
{
    if DirectoryBlock::remove(block, change.name).is_none() {
        return false;
    }
    put(block, change)
}

// The same where the names of the block are marked: one without a mark isn't looked for.
pub(crate) fn amend_marked(block: &mut Block, marks: &NameMarks, change: &MarkedChange<'_>) -> bool
    requires block { IsDirectoryBlock block.old }
    requires marks { AreMarked marks.now.marks (names_in block.old) }
    requires change { IsChange change.now }
    ensures stood { result ≡ is_some (number_of change.now.name.now (names_in block.old)) }
    ensures amended { IsTrue result → names_in block.new
        ≡ without change.now.name.now (names_in block.old) ++ link_for change.now }
    ensures none { result ≡ false → block.new ≡ block.old }
    ensures marks { AreMarked marks.now.marks (names_in block.new) }
    ensures still { IsDirectoryBlock block.new }
{
    if !marks.may_have(change) {
        return false;
    }
    amend(block, &change.change())
}

// Puts a name after the others of a block. `false` where there is no room for it.
pub(crate) fn put(block: &mut Block, change: &NameChange<'_>) -> bool
    requires block { IsDirectoryBlock block.old }
    requires change { IsChange change.now }
    ensures put { IsTrue result → names_in block.new ≡ names_in block.old ++ link_for change.now }
    ensures full { result ≡ false → AreLinks (names_in block.old ++ link_for change.now) → ⊥ }
    ensures none { result ≡ false → block.new ≡ block.old }
    ensures still { IsDirectoryBlock block.new }
{
    match change.number {
        Some(number) => DirectoryBlock::insert(block, change.name, number),
        None => true,
    }
}

// Whether a change is to put a name that takes more than so many bytes.
fn takes_more(change: &NameChange<'_>, room: usize) -> bool
    ensures { IsTrue result → (is_some change.now.number ≡ true) × (room < length change.now.name.now + 3) }
{
    change.number.is_some() && change.name.len() + 3 > room
}

// The same where no more than so many bytes of the block are left: a name that takes more isn't tried.
pub(crate) fn put_within(block: &mut Block, room: usize, change: &NameChange<'_>) -> bool
    requires block { IsDirectoryBlock block.old }
    requires room { 4096 ≤ length (links_bytes (names_in block.old)) + room }
    requires change { IsChange change.now }
    ensures put { IsTrue result → names_in block.new ≡ names_in block.old ++ link_for change.now }
    ensures full { result ≡ false → AreLinks (names_in block.old ++ link_for change.now) → ⊥ }
    ensures none { result ≡ false → block.new ≡ block.old }
    ensures still { IsDirectoryBlock block.new }
{
    if takes_more(change, room) {
        return false;
    }
    put(block, change)
}
