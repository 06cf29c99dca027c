//! How an index learns the names of a block.
ghost use Rattle.std.specs.Prelude.{◌≡◌, ◌≢◌, ◌<◌, ◌-◌, ℕ, All, Contains, IsTrue, OnOk, length, slice_index, vec_len};
ghost use Rattle.sn_layout_node.specs.Directory.{Link, links_bytes};
ghost use Rattle.sn_names.specs.Prints.{entry_for};
ghost use Rattle.sn_names.specs.Ordered.{numbers_of};
ghost use Rattle.sn_names.specs.Search.{HasAll};

use crate::ordered::OrderedNumbers;
use crate::{NameIndex, Print};
use sn_layout::Block;
use sn_layout_node::DirectoryBlock;
use std::alloc::AllocError;

// Lists the names of block `i`.
fn list_names(
    entries: &mut OrderedNumbers,
    names: &DirectoryBlock<'_>,
    i: u64,
) -> Result<(), AllocError>
    requires { i < 16384 }
    ensures kept { OnOk result (HasAll (numbers_of entries.old) (numbers_of entries.new)) }
    ensures listed { OnOk result (All (λ (link : Link). Contains (numbers_of entries.new) (entry_for link.name i)) names.now) }
{
    for entry in names.entries() {
        entries.add(Print::of(entry.name).entry_at(i))?;
    }
    Ok(())
}

// The room of a directory block, 0 to 4,096 bytes.
fn room_of(names: &DirectoryBlock<'_>) -> u16
    ensures { result ≡ 4096 - length (links_bytes names.now) }
{
    names.room() as u16
}

impl NameIndex {
    ghost use Rattle.sn_ondisk.specs.Trees.{Store};
    ghost use Rattle.sn_names.specs.Index.{Tells};

    // Whether the names of block `i` aren't known, and it's at this number.
    fn awaits(&self, i: u64, number: u32) -> bool
        ensures within { IsTrue result → i < vec_len self.now.numbers }
        ensures there { IsTrue result → slice_index self.now.numbers.items i ≡ number }
        ensures somewhere { IsTrue result → number ≢ 0 }
    {
        i < self.numbers.len() as u64
            && number != 0
            && self.numbers[i as usize] == number
            && self.rooms[i as usize].is_none()
    }

    // Moves the mark before the first unknown block on.
    pub(crate) fn pass_known(&mut self)
        ensures tree { self.new.tree ≡ self.old.tree }
        ensures numbers { self.new.numbers.items ≡ self.old.numbers.items }
        ensures rooms { self.new.rooms.items ≡ self.old.rooms.items }
        ensures entries { self.new.entries ≡ self.old.entries }
    {
        while self.first_unknown < self.rooms.len() && self.rooms[self.first_unknown].is_some() {
            self.first_unknown += 1;
        }
    }

    // The names of block `i` become known from its bytes, if the block is at this number, and they spell
    // names. Where memory is refused, what the index says is lost.
    pub(crate) fn note(&mut self, i: u64, number: u32, block: &Block) -> Result<(), AllocError>
        ensures tree { self.new.tree ≡ self.old.tree }
        ensures numbers { self.new.numbers.items ≡ self.old.numbers.items }
        ensures told { OnOk result ((sectors : ℕ) (s : Store) → Tells sectors s self.old
            → s number ≡ block.now → Tells sectors s self.new) }
    {
        if !self.awaits(i, number) {
            return Ok(());
        }
        let Some(names) = DirectoryBlock::decode(block) else {
            return Ok(());
        };
        list_names(&mut self.entries, &names, i)?;
        self.rooms[i as usize] = Some(room_of(&names));
        self.pass_known();
        if self.first_unknown == self.rooms.len() {
            self.entries.settle()?;
        }
        Ok(())
    }
}
