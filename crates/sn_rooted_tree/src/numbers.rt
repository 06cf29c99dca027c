//! The numbers of a root's tree, and its files without names.
ghost use Rattle.std.specs.Prelude.{◌≡◌, ℕ, false, Option as TheOption, Err, IsTrue, IfOk};
ghost use Rattle.sn_block.specs.Lending.{device_of};
ghost use Rattle.sn_number_table.specs.Nameless.{TellsNameless};
ghost use Rattle.sn_number_table.specs.Table.{TellsNumbers, kept_of, since_of};
ghost use Rattle.sn_model.specs.Settling.{nameless_in};
ghost use Rattle.sn_rooted.specs.Roots.{IsSoundOn, tree_on};
ghost use Rattle.sn_rooted_tree.specs.Numbering.{HasUse, KeepsNone, NotesNone, NotesUse, use_of};
ghost use Rattle.sn_tree_read.specs.Counts.{CountsTree};
ghost use Rattle.sn_tree_read.specs.declared.fault.TreeFault.TheVariants.{Damaged};

use crate::loading::record_count;
use sn_block::Blocks;
use sn_device::Device;
use sn_inode::{get, inode_laws};
use sn_layout::BlockTree;
use sn_layout_node::Inode;
use sn_limits::{Kind, Limits};
use sn_number_table::{NamelessFiles, NumberTable};
use sn_tree_read::TreeFault;
use std::alloc::{AllocError, Global};

/// What is known of the numbers of a root's tree.
#[derive(Drop)]
pub struct RootNumbers {
    /// The numbers that have a node.
    pub numbers: NumberTable,
    /// Those of files without names.
    pub nameless_files: NamelessFiles,
    /// How many files have no name.
    pub nameless: u32,
}

// What has a number.
#[derive(Clone, Copy, PartialEq, Eq)]
pub(crate) enum NumberUse {
    // No node.
    Unused,
    // A directory, or a file that has a name.
    Named,
    // A file that has none.
    Nameless,
}

// What an inode is of.
fn use_of(inode: &Inode) -> NumberUse
    ensures { result ≡ use_of inode.now.kind inode.now.links }
{
    match inode.kind {
        Kind::File => {
            if inode.links == 0 {
                return NumberUse::Nameless;
            }
            NumberUse::Named
        }
        Kind::Directory => NumberUse::Named,
    }
}

// What has a number in a root's tree. Its inode is read once.
fn number_use<D: Device>(
    blocks: &mut Blocks<D>,
    limits: &Limits,
    file: &BlockTree,
    number: u16,
) -> Result<NumberUse, TreeFault>
    ensures found { IsTrue D.tells_bytes → IsSoundOn blocks.old limits.now file.now
        → IfOk result (λ found. HasUse (tree_on blocks.old file.now) number found) }
    ensures damaged { IsTrue D.tells_bytes → IsSoundOn blocks.old limits.now file.now → (block : TheOption ℕ) → result ≡ Err (Damaged block) → ⊥ }
    ensures same { IsTrue D.tells_bytes → D.disk (device_of blocks.new) ≡ D.disk (device_of blocks.old) }
    ensures counts { CountsTree result (D.status (device_of blocks.old)) (D.status (device_of blocks.new)) }
{
    inode_laws();
    match get(blocks, limits, file, number)? {
        Some(inode) => Ok(use_of(&inode)),
        None => Ok(NumberUse::Unused),
    }
}

// Notes what has a number.
fn note_use(numbers: &mut RootNumbers, number: u16, found: NumberUse)
    ensures notes { NotesUse number found numbers.old numbers.new }
    ensures kept { KeepsNone numbers.old → KeepsNone numbers.new }
{
    match found {
        NumberUse::Unused => {}
        NumberUse::Named => numbers.numbers.take(number),
        NumberUse::Nameless => {
            numbers.numbers.take(number);
            numbers.nameless_files.insert(number);
            numbers.nameless = numbers.nameless.saturating_add(1);
        }
    }
}

// No number was noted. All memory is taken here.
fn none_noted(alloc: Global) -> Result<RootNumbers, AllocError>
    ensures { IfOk result NotesNone }
{
    Ok(RootNumbers {
        numbers: NumberTable::new(alloc)?,
        nameless_files: NamelessFiles::new(alloc)?,
        nameless: 0,
    })
}

/// Notes which numbers of a root's tree have a node, and which of them are those of files without names. `file` is the
/// root's inode file, and each of its inodes is read once. No number is kept back. Where the root is sound, `Damaged` never
/// comes. Memory is taken for the answer, and for blocks that aren't kept.
///
/// Proved: Which numbers have a node, and which of these are files without names, is noted and counted by one pass over the
/// same records: exactly those of the tree that a sound root denotes, with no number kept back, and `Damaged` is never
/// answered then.
pub fn numbers_of<D: Device>(
    alloc: Global,
    blocks: &mut Blocks<D>,
    limits: &Limits,
    file: &BlockTree,
) -> Result<RootNumbers, TreeFault>
    ensures numbers { IsTrue D.tells_bytes → IsSoundOn blocks.old limits.now file.now
        → IfOk result (λ r. TellsNumbers (tree_on blocks.old file.now) r.numbers) }
    ensures nameless { IsTrue D.tells_bytes → IsSoundOn blocks.old limits.now file.now
        → IfOk result (λ r. TellsNameless (tree_on blocks.old file.now) r.nameless_files) }
    ensures count { IsTrue D.tells_bytes → IsSoundOn blocks.old limits.now file.now
        → IfOk result (λ r. r.nameless ≡ nameless_in (tree_on blocks.old file.now)) }
    ensures kept { IfOk result (λ r. (n : ℕ) → kept_of r.numbers n ≡ false) }
    ensures since { IfOk result (λ r. (n : ℕ) → since_of r.numbers n ≡ false) }
    ensures damaged { IsTrue D.tells_bytes → IsSoundOn blocks.old limits.now file.now → (block : TheOption ℕ) → result ≡ Err (Damaged block) → ⊥ }
    ensures same { IsTrue D.tells_bytes → D.disk (device_of blocks.new) ≡ D.disk (device_of blocks.old) }
    ensures counts { CountsTree result (D.status (device_of blocks.old)) (D.status (device_of blocks.new)) }
{
    let mut numbers = none_noted(alloc)?;
    for number in 0..record_count(file) {
        let found = number_use(blocks, limits, file, number as u16)?;
        note_use(&mut numbers, number as u16, found);
    }
    Ok(numbers)
}
