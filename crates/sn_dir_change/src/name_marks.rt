//! Which names a block may have.
ghost use Rattle.std.specs.Prelude.{◌≡◌, ◌<◌, ◌-◌, false, is_some, slice_index_or};
ghost use Rattle.sn_layout_node.specs.Directory.{number_of};
ghost use Rattle.sn_dir_change.specs.NameMarks.{AreMarked, hash_of};

use crate::NameChange;
use sn_layout_node::DirectoryBlock;
use std::marker::Model;

// How many marks there are: few names of one block share one.
const MARKS: usize = 4096;

/// A mark for each name of a block, by a hash of its bytes. A name without a mark isn't there, so most names that
/// a block doesn't have are ruled out by one look at the marks, and not by one at each of its names.
#[derive(Drop)]
pub(crate) struct NameMarks {
    marks: [bool; 4096],
}

// Which mark is that of a name.
fn hash(name: &[u8]) -> usize
    ensures value { result ≡ hash_of name.now }
    ensures within { result < 4096 }
{
    let mut hash = 0;
    for byte in name {
        hash = (31 * hash + usize::from(*byte)) % MARKS;
    }
    hash
}

/// A change beside which mark is that of its name, so that each block is one look.
#[derive(Drop)]
pub(crate) struct MarkedChange<'a> {
    change: NameChange<'a>,
    mark: usize,
}

impl<'a> Model for MarkedChange<'a> {
    ghost use Rattle.std.specs.Prelude.{◌≡◌, ◌<◌};
    ghost use Rattle.sn_dir_change.specs.NameMarks.{hash_of};
    ghost use Rattle.sn_dir_change.specs.declared.name_change.NameChange.{NameChange as TheChange};

    ghost Value = { TheChange };

    ghost view = { λ marked. marked.change };

    ghost invariant = { λ marked. (marked.mark ≡ hash_of marked.change.name.now) × (marked.mark < 4096) };
}

impl<'a> MarkedChange<'a> {
    /// A change with the mark of its name.
    pub fn of(change: NameChange<'a>) -> Self
        ensures { result ≡ change.entry }
    {
        let mark = hash(change.name);
        MarkedChange { change, mark }
    }

    /// The change by itself.
    pub fn change(&self) -> NameChange<'a>
        ensures { result ≡ self.now }
    {
        self.change
    }
}

impl NameMarks {
    /// The marks of the names of a block.
    pub fn of(names: &DirectoryBlock<'_>) -> Self
        ensures { AreMarked result.marks names.now }
    {
        let mut marks = [false; MARKS];
        for entry in names.entries() {
            marks[hash(entry.name)] = true;
        }
        NameMarks { marks }
    }

    /// Whether the mark of a change's name is there.
    pub fn may_have(&self, change: &MarkedChange<'_>) -> bool
        ensures { result ≡ slice_index_or self.now.marks (hash_of change.now.name.now) false }
    {
        self.marks[change.mark]
    }

    /// Whether the block has a change's name.
    pub fn has(&self, names: &DirectoryBlock<'_>, change: &MarkedChange<'_>) -> bool
        requires { AreMarked self.now.marks names.now }
        ensures { result ≡ is_some (number_of change.now.name.now names.now) }
    {
        if !self.may_have(change) {
            return false;
        }
        names.find(change.change.name).is_some()
    }
}
