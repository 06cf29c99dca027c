//! The changes that are still to be made.
ghost use Rattle.std.specs.Prelude.{◌≡◌, ℕ, ◌+◌, ◌==◌, ◌≤◌, ◌||◌, if◌then◌else◌, List, [], ◌∷◌, ◌++◌, ⊤, Option as TheOption, Err, length, map, is_some, IsTrue, IfOk, OnOk};
ghost use Rattle.sn_device.specs.Disk.{reads};
ghost use Rattle.sn_block.specs.Lending.{device_of};
ghost use Rattle.sn_layout_node.specs.Directory.{Link, number_of};
ghost use Rattle.sn_layout_node.specs.declared.content.Content.TheVariants.{Tree};
ghost use Rattle.sn_ondisk.specs.Trees.{store_of};
ghost use Rattle.sn_image.specs.Names.{names_of};
ghost use Rattle.sn_tree_read.specs.Counts.{CountsTree};
ghost use Rattle.sn_tree_read.specs.declared.fault.TreeFault.TheVariants.{Damaged};
ghost use Rattle.sn_dir.specs.Blocks.{IsDamagedAt};
ghost use Rattle.sn_image.specs.Sound.{AreOnce};
ghost use Rattle.sn_dir_change.specs.Changes.{AreChanges, AreLinkChanges, ArePuts, IsChange, needed_changes};
ghost use Rattle.sn_dir_change.specs.Standing.{change_of, seen};
ghost use Rattle.sn_dir_change.specs.UnderWay.{AreParted, IsUnderWay};
ghost use Rattle.sn_dir_change.specs.declared.name_change.NameChange.{NameChange as TheChange};

use crate::NameChange;
use crate::name_marks::MarkedChange;
use crate::standing::{Sought, seek};
use sn_block::Blocks;
use sn_device::Device;
use sn_layout::BlockTree;
use sn_tree_read::TreeFault;
use std::alloc::{AllocError, Global};

/// The changes that are still to be made.
#[derive(Drop)]
pub(crate) struct Pending<'a> {
    /// Those of names that the directory has.
    pub standing: Vec<MarkedChange<'a>>,
    /// Those of names that it doesn't have, and is to have.
    pub waiting: Vec<NameChange<'a>>,
}

// Appends a change of a name that is there.
fn note_standing<'a>(
    list: &mut Vec<MarkedChange<'a>>,
    change: &NameChange<'a>,
) -> Result<(), AllocError>
    ensures { OnOk result (list.new.items ≡ list.old.items ++ change.now ∷ []) }
{
    list.push(MarkedChange::of(*change))?;
    Ok(())
}

// Appends a change of a name that isn't.
fn note_waiting<'a>(
    list: &mut Vec<NameChange<'a>>,
    change: &NameChange<'a>,
) -> Result<(), AllocError>
    ensures { OnOk result (list.new.items ≡ list.old.items ++ change.now ∷ []) }
{
    list.push(*change)?;
    Ok(())
}

impl<'a> Pending<'a> {
    fn none(alloc: Global) -> Self
        ensures standing { result.standing.items ≡ [] }
        ensures waiting { result.waiting.items ≡ [] }
    {
        Pending {
            standing: Vec::new(alloc),
            waiting: Vec::new(alloc),
        }
    }

    // Notes a change of a name that is there or isn't.
    fn add(&mut self, change: &NameChange<'a>, stands: bool) -> Result<(), AllocError>
        requires { IsChange change.now }
        ensures parted { (names : List Link) (taken : List TheChange) → stands ≡ is_some (number_of change.now.name.now names)
            → AreParted names taken self.old.standing.items self.old.waiting.items
            → OnOk result (AreParted names (taken ++ change.now ∷ []) self.new.standing.items self.new.waiting.items) }
        ensures few { OnOk result (length self.new.standing.items + length self.new.waiting.items
            ≤ length self.old.standing.items + length self.old.waiting.items + 1) }
        ensures needed { OnOk result (length self.new.standing.items + length self.new.waiting.items
            ≤ length self.old.standing.items + length self.old.waiting.items
            + (if is_some change.now.number || stands then 1 else 0)) }
        ensures standing { AreLinkChanges self.old.standing.items → OnOk result (AreLinkChanges self.new.standing.items) }
        ensures waiting { AreLinkChanges self.old.waiting.items → OnOk result (AreLinkChanges self.new.waiting.items) }
        ensures puts { ArePuts self.old.waiting.items → OnOk result (ArePuts self.new.waiting.items) }
    {
        if stands {
            return note_standing(&mut self.standing, change);
        }
        if change.number.is_none() {
            return Ok(());
        }
        note_waiting(&mut self.waiting, change)
    }

    // Parts changes whose names were looked for.
    fn of(alloc: Global, list: &[Sought<'a>]) -> Result<Self, AllocError>
        requires { AreLinkChanges (map change_of list.now) }
        ensures parted { (names : List Link) (changes : List TheChange) → list.now ≡ map (seen names) changes
            → IfOk result (λ pending. AreParted names changes pending.standing.items pending.waiting.items) }
        ensures few { IfOk result (λ pending.
            length pending.standing.items + length pending.waiting.items ≤ length list.now) }
        ensures needed { (names : List Link) (changes : List TheChange) → list.now ≡ map (seen names) changes
            → IfOk result (λ pending. length pending.standing.items + length pending.waiting.items
            ≤ needed_changes names changes) }
        ensures standing { IfOk result (λ pending. AreLinkChanges pending.standing.items) }
        ensures waiting { IfOk result (λ pending. AreLinkChanges pending.waiting.items) }
        ensures puts { IfOk result (λ pending. ArePuts pending.waiting.items) }
    {
        let mut pending = Pending::none(alloc);
        for sought in list {
            pending.add(&sought.change.change(), sought.stands)?;
        }
        Ok(pending)
    }

    /// Whether there are none.
    pub fn is_empty(&self) -> bool
        ensures { result ≡ (length self.now.standing.items + length self.now.waiting.items == 0) }
    {
        self.standing.is_empty() && self.waiting.is_empty()
    }
}

/// Parts changes by whether the directory has their names.
pub(crate) fn parted<'a, D: Device>(
    alloc: Global,
    blocks: &mut Blocks<D>,
    tree: &BlockTree,
    changes: &[NameChange<'a>],
) -> Result<Pending<'a>, TreeFault>
    requires { AreChanges changes.now }
    ensures way { IsTrue D.tells_bytes → IfOk result (λ pending.
        AreOnce (names_of (store_of (reads (D.disk (device_of blocks.old)))) (Tree tree.now))
        → IsUnderWay changes.now pending.standing.items pending.waiting.items []
        (names_of (store_of (reads (D.disk (device_of blocks.old)))) (Tree tree.now))
        (names_of (store_of (reads (D.disk (device_of blocks.old)))) (Tree tree.now))) }
    ensures few { IfOk result (λ pending.
        length pending.standing.items + length pending.waiting.items ≤ length changes.now) }
    ensures needed { IsTrue D.tells_bytes → IfOk result (λ pending.
        length pending.standing.items + length pending.waiting.items
        ≤ needed_changes (names_of (store_of (reads (D.disk (device_of blocks.old)))) (Tree tree.now)) changes.now) }
    ensures standing { IfOk result (λ pending. AreLinkChanges pending.standing.items) }
    ensures waiting { IfOk result (λ pending. AreLinkChanges pending.waiting.items) }
    ensures puts { IfOk result (λ pending. ArePuts pending.waiting.items) }
    ensures damaged { IsTrue D.tells_bytes → (block : TheOption ℕ) → result ≡ Err (Damaged block)
        → IsDamagedAt (λ names. ⊤) (D.status (device_of blocks.old)).sectors
        (store_of (reads (D.disk (device_of blocks.old)))) tree.now block }
    ensures same { IsTrue D.tells_bytes → D.disk (device_of blocks.new) ≡ D.disk (device_of blocks.old) }
    ensures counts { CountsTree result (D.status (device_of blocks.old)) (D.status (device_of blocks.new)) }
{
    let sought = seek(alloc, blocks, tree, changes)?;
    let pending = Pending::of(alloc, &sought)?;
    Ok(pending)
}
