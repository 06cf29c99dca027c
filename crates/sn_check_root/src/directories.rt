//! The blocks of a directory, and the names in them.
ghost use Rattle.std.specs.Prelude.{◌≡◌, ◌≢◌, ◌/◌, ◌%◌, ◌<◌, ◌≤◌, false, ℕ, ⊤, length, map, Err, IsTrue, IsSome, IfOk, IfErr, OnOk};
ghost use Rattle.std.specs.List.Sorted.{IsPermutation, IsSorted};
ghost use Rattle.sn_device.specs.Disk.{reads};
ghost use Rattle.sn_block.specs.declared.fault.ReadFault.{ReadFault as TheFault};
ghost use Rattle.sn_block.specs.Lending.{device_of, fetched_number, fetched_bytes};
ghost use Rattle.sn_layout_node.specs.Directory.{IsDirectoryBlock};
ghost use Rattle.sn_layout_node.specs.declared.content.Content.TheVariants.{Tree};
ghost use Rattle.sn_ondisk.specs.Trees.{store_of, data_block};
ghost use Rattle.sn_image.specs.Names.{names_in, names_of};
ghost use Rattle.sn_image.specs.Sound.{AreOnce, HasBlocks};
ghost use Rattle.sn_dir.specs.Blocks.{IsDamaged, IsThere};
ghost use Rattle.sn_dir.specs.Listed.{link_of, listed_cmp};
ghost use Rattle.sn_sound.specs.Faults.{IsDirectoryFault};
ghost use Rattle.sn_marks.specs.Fault.{CountsCheck, Tells};
ghost use Rattle.sn_marks.specs.declared.fault.CheckFault.TheVariants.{Read};
ghost use Rattle.sn_check_root.specs.Reading.{TreeLies};
ghost use Rattle.sn_check_root.specs.Rules.{AreNames, Breaks, HasBadBlock, IsBadBlock, IsNamesBlock, IsSpeltWrong, StandsTwice};

use crate::readers::{fault_at, pointer_to};
use sn_block::{Block, Blocks};
use sn_device::Device;
use sn_dir::{ListedName, block_count, fetch_block, names};
use sn_layout::BlockTree;
use sn_layout_node::DirectoryBlock;
use sn_limits::Limits;
use sn_marks::CheckFault;
use std::alloc::Global;

// How many names a block spells. One that spells none is reported.
fn count_of(block: &Block, pointer: u32) -> Result<u64, CheckFault>
    ensures count { IfOk result (λ count. count ≡ length (names_in block.now)) }
    ensures few { IfOk result (λ count. count ≤ 4096) }
    ensures spelled { OnOk result (IsDirectoryBlock block.now) }
    ensures read { (fault : TheFault) → result ≢ Err (Read fault) }
    ensures fault { IfErr result (λ fault. Tells fault (Breaks (IsDirectoryBlock block.now) pointer)) }
{
    match DirectoryBlock::decode(block) {
        Some(names) => Ok(names.len() as u64),
        None => Err(CheckFault::misspelt(pointer)),
    }
}

// Makes a block of a directory the one that is lent. A hole is reported at the block of the record.
fn fetch_there<D: Device>(
    blocks: &mut Blocks<D>,
    tree: &BlockTree,
    i: u64,
    top: u32,
) -> Result<(), CheckFault>
    ensures lent { OnOk result (IsSome (fetched_number blocks.new)) }
    ensures block { IsTrue D.tells_bytes → OnOk result (fetched_bytes blocks.new
        ≡ data_block (store_of (reads (D.disk (device_of blocks.old)))) tree.now i) }
    ensures there { IsTrue D.tells_bytes → OnOk result (IsThere (D.status (device_of blocks.old)).sectors
        (store_of (reads (D.disk (device_of blocks.old)))) tree.now i) }
    ensures fault { IsTrue D.tells_bytes → IfErr result (λ fault. Tells fault (Breaks
        (IsThere (D.status (device_of blocks.old)).sectors (store_of (reads (D.disk (device_of blocks.old)))) tree.now i) top)) }
    ensures same { IsTrue D.tells_bytes → D.disk (device_of blocks.new) ≡ D.disk (device_of blocks.old) }
    ensures counts { CountsCheck result (D.status (device_of blocks.old)) (D.status (device_of blocks.new)) }
{
    match fetch_block(blocks, tree, i) {
        Ok(_) => Ok(()),
        Err(fault) => Err(fault_at(fault, top)),
    }
}

// How many names there are in one block of a directory. A hole, and one that spells none, is reported.
fn count_in<D: Device>(
    blocks: &mut Blocks<D>,
    tree: &BlockTree,
    i: u64,
    top: u32,
) -> Result<u64, CheckFault>
    requires lies { IsTrue D.tells_bytes → TreeLies (D.status (device_of blocks.old)).sectors
        (store_of (reads (D.disk (device_of blocks.old)))) tree.now }
    ensures count { IsTrue D.tells_bytes → IfOk result (λ count. count
        ≡ length (names_in (data_block (store_of (reads (D.disk (device_of blocks.old)))) tree.now i))) }
    ensures few { IfOk result (λ count. count ≤ 4096) }
    ensures sound { IsTrue D.tells_bytes → OnOk result
        (IsNamesBlock (store_of (reads (D.disk (device_of blocks.old)))) tree.now i) }
    ensures fault { IsTrue D.tells_bytes → IfErr result (λ fault. Tells fault (IsSpeltWrong
        (IsBadBlock (store_of (reads (D.disk (device_of blocks.old)))) tree.now i top))) }
    ensures same { IsTrue D.tells_bytes → D.disk (device_of blocks.new) ≡ D.disk (device_of blocks.old) }
    ensures counts { CountsCheck result (D.status (device_of blocks.old)) (D.status (device_of blocks.new)) }
{
    let pointer = pointer_to(blocks, tree, i, top)?;
    fetch_there(blocks, tree, i, top)?;
    count_of(blocks.fetched(), pointer)
}

// How many names a directory has. The first block that is a hole or spells none is reported.
fn count_names<D: Device>(
    blocks: &mut Blocks<D>,
    tree: &BlockTree,
    top: u32,
) -> Result<u64, CheckFault>
    requires lies { IsTrue D.tells_bytes → TreeLies (D.status (device_of blocks.old)).sectors
        (store_of (reads (D.disk (device_of blocks.old)))) tree.now }
    ensures count { IsTrue D.tells_bytes → IfOk result (λ count. count
        ≡ length (names_of (store_of (reads (D.disk (device_of blocks.old)))) (Tree tree.now))) }
    ensures sound { IsTrue D.tells_bytes → OnOk result ((i : ℕ) → i < tree.now.size / 4096
        → IsNamesBlock (store_of (reads (D.disk (device_of blocks.old)))) tree.now i) }
    ensures fault { IsTrue D.tells_bytes → IfErr result (λ fault. Tells fault (IsSpeltWrong
        (HasBadBlock (store_of (reads (D.disk (device_of blocks.old)))) tree.now top))) }
    ensures same { IsTrue D.tells_bytes → D.disk (device_of blocks.new) ≡ D.disk (device_of blocks.old) }
    ensures counts { CountsCheck result (D.status (device_of blocks.old)) (D.status (device_of blocks.new)) }
{
    let mut count = 0;
    for i in 0..block_count(tree) {
        let names = count_in(blocks, tree, i, top)?;
        count += names;
    }
    Ok(count)
}

// Whether no name occurs twice among sorted ones.
fn are_once(names: &[ListedName]) -> bool
    requires { IsSorted listed_cmp names.now }
    ensures once { IsTrue result → AreOnce (map link_of names.now) }
    ensures twice { result ≡ false → StandsTwice (map link_of names.now) }
{
    for i in 1..names.len() {
        if names[i].name == names[i - 1].name {
            return false;
        }
    }
    true
}

// All names of a directory whose blocks were tested, in order.
fn listed<D: Device>(
    alloc: Global,
    blocks: &mut Blocks<D>,
    tree: &BlockTree,
    top: u32,
) -> Result<Vec<ListedName>, CheckFault>
    ensures names { IsTrue D.tells_bytes → IfOk result (λ names. IsPermutation
        (names_of (store_of (reads (D.disk (device_of blocks.old)))) (Tree tree.now)) (map link_of names.items)) }
    ensures sorted { IfOk result (λ names. IsSorted listed_cmp names.items) }
    ensures fault { IsTrue D.tells_bytes → IfErr result (λ fault. Tells fault (Breaks (IsDamaged (λ names. ⊤)
        (D.status (device_of blocks.old)).sectors
        (store_of (reads (D.disk (device_of blocks.old)))) tree.now → ⊥) top)) }
    ensures same { IsTrue D.tells_bytes → D.disk (device_of blocks.new) ≡ D.disk (device_of blocks.old) }
    ensures counts { CountsCheck result (D.status (device_of blocks.old)) (D.status (device_of blocks.new)) }
{
    match names(alloc, blocks, tree) {
        Ok(names) => Ok(names),
        Err(fault) => Err(fault_at(fault, top)),
    }
}

// Tests that no name occurs twice in a directory whose blocks were tested.
fn check_listed<D: Device>(
    alloc: Global,
    blocks: &mut Blocks<D>,
    tree: &BlockTree,
    top: u32,
) -> Result<(), CheckFault>
    ensures once { IsTrue D.tells_bytes → OnOk result (AreOnce
        (names_of (store_of (reads (D.disk (device_of blocks.old)))) (Tree tree.now))) }
    ensures fault { IsTrue D.tells_bytes → (IsDamaged (λ names. ⊤) (D.status (device_of blocks.old)).sectors
        (store_of (reads (D.disk (device_of blocks.old)))) tree.now → ⊥)
        → IfErr result (λ fault. Tells fault (IsSpeltWrong (λ block. (block ≡ top) × StandsTwice
        (names_of (store_of (reads (D.disk (device_of blocks.old)))) (Tree tree.now))))) }
    ensures same { IsTrue D.tells_bytes → D.disk (device_of blocks.new) ≡ D.disk (device_of blocks.old) }
    ensures counts { CountsCheck result (D.status (device_of blocks.old)) (D.status (device_of blocks.new)) }
{
    let names = listed(alloc, blocks, tree, top)?;
    if !are_once(names.as_slice()) {
        return Err(CheckFault::misspelt(top));
    }
    Ok(())
}

/// Tests the blocks of a directory and the names in them. `top` is the block of the directory's record.
/// What is reported is so: a hole, a name that occurs twice or too many names, all at `top`, or a block
/// that spells no names.
pub(crate) fn check_directory<D: Device>(
    alloc: Global,
    blocks: &mut Blocks<D>,
    limits: &Limits,
    tree: &BlockTree,
    top: u32,
) -> Result<(), CheckFault>
    requires whole { tree.now.size % 4096 ≡ 0 }
    requires lies { IsTrue D.tells_bytes → TreeLies (D.status (device_of blocks.old)).sectors
        (store_of (reads (D.disk (device_of blocks.old)))) tree.now }
    ensures blocks { IsTrue D.tells_bytes → OnOk result (HasBlocks (store_of (reads (D.disk (device_of blocks.old)))) tree.now) }
    ensures names { IsTrue D.tells_bytes → OnOk result (AreNames limits.now
        (names_of (store_of (reads (D.disk (device_of blocks.old)))) (Tree tree.now))) }
    ensures fault { IsTrue D.tells_bytes → IfErr result (λ fault. Tells fault (IsSpeltWrong (IsDirectoryFault limits.now
        (store_of (reads (D.disk (device_of blocks.old)))) tree.now
        (names_of (store_of (reads (D.disk (device_of blocks.old)))) (Tree tree.now)) top))) }
    ensures same { IsTrue D.tells_bytes → D.disk (device_of blocks.new) ≡ D.disk (device_of blocks.old) }
    ensures counts { CountsCheck result (D.status (device_of blocks.old)) (D.status (device_of blocks.new)) }
{
    let count = count_names(blocks, tree, top)?;
    if count > u64::from(limits.names) {
        return Err(CheckFault::misspelt(top));
    }
    check_listed(alloc, blocks, tree, top)
}
