//! The table of the directories of a root's tree.
ghost use Rattle.std.specs.Prelude.{◌≡◌, ℕ, ◌+◌, ◌-◌, ◌/◌, ◌^◌, Option as TheOption, Err, Some, length, map, min, Contains, IsTrue, IfOk, OnOk};
ghost use Rattle.std.specs.FinMap as fin;
ghost use Rattle.sn_block.specs.Lending.{device_of};
ghost use Rattle.sn_directories.specs.Told.{TellsDirectories};
ghost use Rattle.sn_dir.specs.declared.listings.ListedName.{ListedName as TheName};
ghost use Rattle.sn_limits.specs.Versions.{limits_written};
ghost use Rattle.sn_model.specs.NameTree.{IsTree};
ghost use Rattle.sn_model.specs.Seen.{names_of};
ghost use Rattle.sn_model.specs.Tree.{Tree, link_to};
ghost use Rattle.sn_rooted.specs.Roots.{IsSoundOn, tree_on};
ghost use Rattle.sn_rooted_tree.specs.Counting.{AreCounted, NotesNames};
ghost use Rattle.sn_tree_read.specs.Counts.{CountsTree};
ghost use Rattle.sn_tree_read.specs.declared.fault.TreeFault.TheVariants.{Damaged};

use sn_block::Blocks;
use sn_device::Device;
use sn_dir::ListedName;
use sn_directories::Directories;
use sn_layout::BlockTree;
use sn_layout_node::INODE_SIZE;
use sn_limits::Limits;
use sn_rooted::names;
use sn_tree_read::TreeFault;
use std::alloc::Global;

/// How many numbers there are.
const NUMBERS: u64 = 65536;

/// How many records an inode file has, no more than there are numbers. No node has a number from there on.
pub(crate) fn record_count(file: &BlockTree) -> u64
    ensures { result ≡ min (file.now.size / 128) 65536 }
{
    (file.size / INODE_SIZE as u64).min(NUMBERS)
}

// Notes the directory in which each of these names is.
fn note_names(directories: &mut Directories, directory: u16, names: &[ListedName])
    ensures { NotesNames directory names.now directories.old directories.new }
{
    for listed in names {
        directories.set_parent(listed.number, directory);
    }
}

// How many names these are.
fn count_of(names: &[ListedName]) -> u32
    ensures { result ≡ min (length names.now) (2 ^ 32 - 1) }
{
    u32::try_from(names.len()).unwrap_or(u32::MAX)
}

// Enters the names of a directory, which are all that it has.
fn enter_names(directories: &mut Directories, directory: u16, names: &[ListedName])
    ensures { (tree : Tree) → IsTree limits_written tree → map (λ (listed : TheName). listed.name) names.now ≡ names_of tree directory
        → ((listed : TheName) → Contains names.now listed → fin.get tree.links (link_to directory listed.name) ≡ Some listed.number)
        → AreCounted tree directory directories.old → AreCounted tree (directory + 1) directories.new }
{
    directories.set_names(directory, count_of(names));
    note_names(directories, directory, names);
}

// Counts the names of a number's directory, and notes that they are in it. A number that is no directory's has none.
fn count_names<D: Device>(
    alloc: Global,
    blocks: &mut Blocks<D>,
    limits: &Limits,
    file: &BlockTree,
    directories: &mut Directories,
    directory: u16,
) -> Result<(), TreeFault>
    ensures counted { IsTrue D.tells_bytes → IsSoundOn blocks.old limits.now file.now → AreCounted (tree_on blocks.old file.now) directory directories.old
        → OnOk result (AreCounted (tree_on blocks.old file.now) (directory + 1) directories.new) }
    ensures damaged { IsTrue D.tells_bytes → IsSoundOn blocks.old limits.now file.now → (block : TheOption ℕ) → result ≡ Err (Damaged block) → ⊥ }
    ensures same { IsTrue D.tells_bytes → D.disk (device_of blocks.new) ≡ D.disk (device_of blocks.old) }
    ensures counts { CountsTree result (D.status (device_of blocks.old)) (D.status (device_of blocks.new)) }
{
    let names = names(alloc, blocks, limits, file, directory)?;
    enter_names(directories, directory, &names);
    Ok(())
}

/// Counts the names of each directory of a root's tree, and notes which directory each is in. `file` is the root's inode
/// file. Each directory is read once. Where the root is sound, `Damaged` is never returned. Memory is taken for the answer,
/// for the names of one directory at a time, and for blocks that aren't kept.
///
/// Proved: How many names each directory has, and which directory each is in, is counted once, each directory being read
/// once, and is that of the tree that a sound root denotes; `Damaged` is never answered then.
pub fn directories_of<D: Device>(
    alloc: Global,
    blocks: &mut Blocks<D>,
    limits: &Limits,
    file: &BlockTree,
) -> Result<Directories, TreeFault>
    ensures tells { IsTrue D.tells_bytes → IsSoundOn blocks.old limits.now file.now
        → IfOk result (λ directories. TellsDirectories (tree_on blocks.old file.now) directories) }
    ensures damaged { IsTrue D.tells_bytes → IsSoundOn blocks.old limits.now file.now → (block : TheOption ℕ) → result ≡ Err (Damaged block) → ⊥ }
    ensures same { IsTrue D.tells_bytes → D.disk (device_of blocks.new) ≡ D.disk (device_of blocks.old) }
    ensures counts { CountsTree result (D.status (device_of blocks.old)) (D.status (device_of blocks.new)) }
{
    let mut directories = Directories::new(alloc)?;
    for number in 0..record_count(file) {
        count_names(alloc, blocks, limits, file, &mut directories, number as u16)?;
    }
    Ok(directories)
}
