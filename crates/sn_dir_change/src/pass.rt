//! The changes of the names of one block.
ghost use Rattle.std.specs.Prelude.{◌≡◌, ◌+◌, ◌++◌, ◌<◌, ◌≤◌, if◌then◌else◌, false, List, Contains, length, IsTrue};
ghost use Rattle.sn_layout_node.specs.Directory.{Link, IsDirectoryBlock, links_bytes};
ghost use Rattle.sn_image.specs.Names.{names_in};
ghost use Rattle.sn_dir_change.specs.Changes.{AreLinkChanges};
ghost use Rattle.sn_dir_change.specs.NameMarks.{AreMarked};
ghost use Rattle.sn_dir_change.specs.UnderWay.{AreFull, AreGone, IsLinkFrom, IsUnderWay};
ghost use Rattle.sn_dir_change.specs.declared.name_change.NameChange.{NameChange as TheChange};

use crate::NameChange;
use crate::amend::{amend_marked, put_within};
use crate::name_marks::{MarkedChange, NameMarks};
use crate::pending::Pending;
use sn_layout::{BLOCK_SIZE, Block};

// Makes the changes of the names that are in a block, whose names are marked.
fn amend_standing(block: &mut Block, marks: &NameMarks, standing: &mut Vec<MarkedChange<'_>>)
    requires block { IsDirectoryBlock block.old }
    requires marks { AreMarked marks.now.marks (names_in block.old) }
    requires changes { AreLinkChanges standing.old.items }
    ensures way { (changes waiting : List TheChange) (front back old : List Link)
        → IsUnderWay changes standing.old.items waiting front (front ++ names_in block.old ++ back) old
        → IsUnderWay changes standing.new.items waiting front (front ++ names_in block.new ++ back) old
        × AreGone standing.new.items (names_in block.new) }
    ensures listed { (change : TheChange) → Contains standing.new.items change → Contains standing.old.items change }
    ensures fewer { length standing.new.items ≤ length standing.old.items }
    ensures same { length standing.new.items ≡ length standing.old.items
        → (block.new ≡ block.old) × (standing.new.items ≡ standing.old.items) }
    ensures changes { AreLinkChanges standing.new.items }
    ensures still { IsDirectoryBlock block.new }
{
    let mut k = 0;
    while k < standing.len() {
        if amend_marked(block, marks, &standing[k]) {
            standing.remove(k);
        } else {
            k += 1;
        }
    }
}

// How many bytes may be left in a block, if so many were before: a name that is taken out may leave more.
fn room_behind(amended: bool, room: usize) -> usize
    ensures { result ≡ (if amended then 4096 else room) }
{
    if amended { BLOCK_SIZE } else { room }
}

/// Puts the names that wait into a block, as far as there is room. No more than so many bytes are left.
pub(crate) fn put_waiting(block: &mut Block, room: usize, waiting: &mut Vec<NameChange<'_>>)
    requires block { IsDirectoryBlock block.old }
    requires room { 4096 ≤ length (links_bytes (names_in block.old)) + room }
    requires changes { AreLinkChanges waiting.old.items }
    ensures way { (changes standing : List TheChange) (front back old : List Link)
        → IsUnderWay changes standing waiting.old.items front (front ++ names_in block.old ++ back) old
        → AreGone standing (names_in block.old)
        → IsUnderWay changes standing waiting.new.items front (front ++ names_in block.new ++ back) old
        × AreGone standing (names_in block.new) }
    ensures full { AreFull waiting.new.items (names_in block.new) }
    ensures from { (link : Link) → Contains (names_in block.new) link
        → IsLinkFrom waiting.old.items (names_in block.old) link }
    ensures listed { (change : TheChange) → Contains waiting.new.items change → Contains waiting.old.items change }
    ensures fewer { length waiting.new.items ≤ length waiting.old.items }
    ensures more { length (names_in block.old) ≤ length (names_in block.new) }
    ensures same { length waiting.new.items ≡ length waiting.old.items
        → (block.new ≡ block.old) × (waiting.new.items ≡ waiting.old.items) }
    ensures changes { AreLinkChanges waiting.new.items }
    ensures still { IsDirectoryBlock block.new }
{
    let mut k = 0;
    while k < waiting.len() {
        if put_within(block, room, &waiting[k]) {
            waiting.remove(k);
        } else {
            k += 1;
        }
    }
}

/// Makes the changes of the names that are in a block, and puts those that wait after the others as
/// far as there is room: so a name is put where one was taken out. The names of the block are marked, and no more
/// than so many bytes are left. Answers whether it is changed.
pub(crate) fn change_names(
    block: &mut Block,
    marks: &NameMarks,
    room: usize,
    pending: &mut Pending<'_>,
) -> bool
    requires block { IsDirectoryBlock block.old }
    requires marks { AreMarked marks.now.marks (names_in block.old) }
    requires room { 4096 ≤ length (links_bytes (names_in block.old)) + room }
    requires standing { AreLinkChanges pending.old.standing.items }
    requires waiting { AreLinkChanges pending.old.waiting.items }
    ensures way { (changes : List TheChange) (front back old : List Link)
        → IsUnderWay changes pending.old.standing.items pending.old.waiting.items front (front ++ names_in block.old ++ back) old
        → IsUnderWay changes pending.new.standing.items pending.new.waiting.items front (front ++ names_in block.new ++ back) old
        × AreGone pending.new.standing.items (names_in block.new) }
    ensures full { AreFull pending.new.waiting.items (names_in block.new) }
    ensures listed { (change : TheChange) → Contains pending.new.waiting.items change
        → Contains pending.old.waiting.items change }
    ensures stand_listed { (change : TheChange) → Contains pending.new.standing.items change
        → Contains pending.old.standing.items change }
    ensures changed { IsTrue result → length pending.new.standing.items + length pending.new.waiting.items
        < length pending.old.standing.items + length pending.old.waiting.items }
    ensures same { result ≡ false → (block.new ≡ block.old) × (pending.new.standing.items ≡ pending.old.standing.items)
        × (pending.new.waiting.items ≡ pending.old.waiting.items) }
    ensures standing { AreLinkChanges pending.new.standing.items }
    ensures waiting { AreLinkChanges pending.new.waiting.items }
    ensures still { IsDirectoryBlock block.new }
{
    let standing = pending.standing.len();
    let waiting = pending.waiting.len();
    amend_standing(block, marks, &mut pending.standing);
    let amended = pending.standing.len() < standing;
    put_waiting(block, room_behind(amended, room), &mut pending.waiting);
    amended || pending.waiting.len() < waiting
}
