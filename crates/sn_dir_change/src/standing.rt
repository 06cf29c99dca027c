//! Which names the directory has.
ghost use Rattle.std.specs.Prelude.{◌≡◌, ℕ, ◌↔◌, ◌++◌, [], ◌∷◌, ⊤, true, map, All, Option as TheOption, Err, IsTrue, IfOk, OnOk};
ghost use Rattle.sn_device.specs.Disk.{reads};
ghost use Rattle.sn_block.specs.Lending.{device_of};
ghost use Rattle.sn_layout_node.specs.declared.content.Content.TheVariants.{Tree};
ghost use Rattle.sn_ondisk.specs.Trees.{store_of, data_block};
ghost use Rattle.sn_image.specs.Names.{names_in, names_of};
ghost use Rattle.sn_tree_read.specs.Counts.{CountsTree};
ghost use Rattle.sn_tree_read.specs.declared.fault.TreeFault.TheVariants.{Damaged};
ghost use Rattle.sn_dir.specs.Blocks.{IsUnread, IsDamagedAt};
ghost use Rattle.sn_dir_change.specs.NameMarks.{AreMarked};
ghost use Rattle.sn_dir_change.specs.Standing.{change_of, seen, seen_too};
ghost use Rattle.sn_dir_change.specs.declared.standing.Sought.{Sought as TheSought};

use crate::NameChange;
use crate::name_marks::{MarkedChange, NameMarks};
use sn_block::Blocks;
use sn_device::Device;
use sn_dir::{begin_index, block_count, decoded, fetch_block, lookup};
use sn_layout::BlockTree;
use sn_layout_node::DirectoryBlock;
use sn_tree_read::TreeFault;
use std::alloc::{AllocError, Global};

/// A change whose name is looked for.
#[derive(Drop)]
pub(crate) struct Sought<'a> {
    pub change: MarkedChange<'a>,
    /// Whether one of the blocks that were looked in has the name.
    pub stands: bool,
}

impl<'a> Sought<'a> {
    // Looks for it in one more block.
    fn look_in(&mut self, names: &DirectoryBlock<'_>, marks: &NameMarks)
        requires { AreMarked marks.now.marks names.now }
        ensures { self.new ≡ seen_too names.now self.old }
    {
        self.stands = self.stands || marks.has(names, &self.change);
    }
}

// Appends a change, and whether its name was found.
fn push_sought<'a>(
    list: &mut Vec<Sought<'a>>,
    change: &NameChange<'a>,
    stands: bool,
) -> Result<(), AllocError>
    ensures { OnOk result (list.new.items ≡ list.old.items ++ (record { change = change.now; stands = stands }) ∷ []) }
{
    list.push(Sought {
        change: MarkedChange::of(*change),
        stands,
    })?;
    Ok(())
}

// Changes before the first block.
fn unseen<'a>(alloc: Global, changes: &[NameChange<'a>]) -> Result<Vec<Sought<'a>>, AllocError>
    ensures { IfOk result (λ list. list.items ≡ map (seen []) changes.now) }
{
    let mut list = Vec::new(alloc);
    for change in changes {
        push_sought(&mut list, change, false)?;
    }
    Ok(list)
}

// Whether no name is left to be found.
fn all_stand(list: &[Sought<'_>]) -> bool
    ensures { IsTrue result ↔ All (λ (sought : TheSought). sought.stands ≡ true) list.now }
{
    list.iter().all(|sought| sought.stands)
}

// Looks for all of them in one block.
fn note_names(names: &DirectoryBlock<'_>, list: &mut [Sought<'_>])
    ensures { list.new ≡ map (seen_too names.now) list.old }
{
    let marks = NameMarks::of(names);
    for sought in list.iter_mut() {
        sought.look_in(names, &marks);
    }
}

// Looks for all of them in block `i`, if there are any left to be found.
fn note_block<D: Device>(
    blocks: &mut Blocks<D>,
    tree: &BlockTree,
    i: u64,
    list: &mut [Sought<'_>],
) -> Result<(), TreeFault>
    ensures sought { IsTrue D.tells_bytes → OnOk result (list.new
        ≡ map (seen_too (names_in (data_block (store_of (reads (D.disk (device_of blocks.old)))) tree.now i))) list.old) }
    ensures listed { OnOk result (map change_of list.new ≡ map change_of list.old) }
    ensures damaged { IsTrue D.tells_bytes → (block : TheOption ℕ) → result ≡ Err (Damaged block)
        → IsUnread (D.status (device_of blocks.old)).sectors
        (store_of (reads (D.disk (device_of blocks.old)))) tree.now i block }
    ensures same { IsTrue D.tells_bytes → D.disk (device_of blocks.new) ≡ D.disk (device_of blocks.old) }
    ensures counts { CountsTree result (D.status (device_of blocks.old)) (D.status (device_of blocks.new)) }
{
    if all_stand(list) {
        return Ok(());
    }
    let number = fetch_block(blocks, tree, i)?;
    let names = decoded(blocks.fetched(), number)?;
    note_names(&names, list);
    Ok(())
}

// Looks for the names of changes, all of them in one going through the blocks, up to the one where the
// last of them is found.
fn seek_in_turn<'a, D: Device>(
    alloc: Global,
    blocks: &mut Blocks<D>,
    tree: &BlockTree,
    changes: &[NameChange<'a>],
) -> Result<Vec<Sought<'a>>, TreeFault>
    ensures sought { IsTrue D.tells_bytes → IfOk result (λ sought. sought.items
        ≡ map (seen (names_of (store_of (reads (D.disk (device_of blocks.old)))) (Tree tree.now))) changes.now) }
    ensures listed { IfOk result (λ sought. map change_of sought.items ≡ changes.now) }
    ensures damaged { IsTrue D.tells_bytes → (block : TheOption ℕ) → result ≡ Err (Damaged block)
        → IsDamagedAt (λ names. ⊤) (D.status (device_of blocks.old)).sectors
        (store_of (reads (D.disk (device_of blocks.old)))) tree.now block }
    ensures same { IsTrue D.tells_bytes → D.disk (device_of blocks.new) ≡ D.disk (device_of blocks.old) }
    ensures counts { CountsTree result (D.status (device_of blocks.old)) (D.status (device_of blocks.new)) }
{
    let mut sought = unseen(alloc, changes)?;
    for i in 0..block_count(tree) {
        note_block(blocks, tree, i, &mut sought)?;
    }
    Ok(sought)
}

// Looks for the name of each change by itself.
fn seek_each<'a, D: Device>(
    alloc: Global,
    blocks: &mut Blocks<D>,
    tree: &BlockTree,
    changes: &[NameChange<'a>],
) -> Result<Vec<Sought<'a>>, TreeFault>
    ensures sought { IsTrue D.tells_bytes → IfOk result (λ sought. sought.items
        ≡ map (seen (names_of (store_of (reads (D.disk (device_of blocks.old)))) (Tree tree.now))) changes.now) }
    ensures listed { IfOk result (λ sought. map change_of sought.items ≡ changes.now) }
    ensures damaged { IsTrue D.tells_bytes → (block : TheOption ℕ) → result ≡ Err (Damaged block)
        → IsDamagedAt (λ names. ⊤) (D.status (device_of blocks.old)).sectors
        (store_of (reads (D.disk (device_of blocks.old)))) tree.now block }
    ensures same { IsTrue D.tells_bytes → D.disk (device_of blocks.new) ≡ D.disk (device_of blocks.old) }
    ensures counts { CountsTree result (D.status (device_of blocks.old)) (D.status (device_of blocks.new)) }
{
    let mut sought = Vec::new(alloc);
    for change in changes {
        let stands = lookup(blocks, tree, change.name)?.is_some();
        push_sought(&mut sought, change, stands)?;
    }
    Ok(sought)
}

/// Looks for the names of changes. Where the directory has an index, which is begun if it can have one, each
/// is looked up by itself, so few blocks are read. Else all are looked for in one going through the blocks.
pub(crate) fn seek<'a, D: Device>(
    alloc: Global,
    blocks: &mut Blocks<D>,
    tree: &BlockTree,
    changes: &[NameChange<'a>],
) -> Result<Vec<Sought<'a>>, TreeFault>
    ensures sought { IsTrue D.tells_bytes → IfOk result (λ sought. sought.items
        ≡ map (seen (names_of (store_of (reads (D.disk (device_of blocks.old)))) (Tree tree.now))) changes.now) }
    ensures listed { IfOk result (λ sought. map change_of sought.items ≡ changes.now) }
    ensures damaged { IsTrue D.tells_bytes → (block : TheOption ℕ) → result ≡ Err (Damaged block)
        → IsDamagedAt (λ names. ⊤) (D.status (device_of blocks.old)).sectors
        (store_of (reads (D.disk (device_of blocks.old)))) tree.now block }
    ensures same { IsTrue D.tells_bytes → D.disk (device_of blocks.new) ≡ D.disk (device_of blocks.old) }
    ensures counts { CountsTree result (D.status (device_of blocks.old)) (D.status (device_of blocks.new)) }
{
    begin_index(blocks, tree)?;
    if blocks.has_index(tree) {
        return seek_each(alloc, blocks, tree, changes);
    }
    seek_in_turn(alloc, blocks, tree, changes)
}
