//! The two records that no node can have, and the root directory.
ghost use Rattle.std.specs.Prelude.{◌≡◌, ◌+◌, ◌*◌, ◌/◌, ◌<◌, ◌≤◌, ◌↔◌, ℕ, false, take, drop, Some, IsTrue, IsSome, IsSomeAnd, IfOk, IfErr, IfSome, OnOk, None, codes, Contains};
ghost use Rattle.sn_device.specs.Disk.{reads};
ghost use Rattle.sn_block.specs.Lending.{device_of, fetched_number};
ghost use Rattle.sn_layout.specs.declared.tree.BlockTree.{BlockTree as TheTree};
ghost use Rattle.sn_layout.specs.Bytes.{zeros};
ghost use Rattle.sn_layout_node.specs.Directory.{number_of};
ghost use Rattle.sn_layout_node.specs.declared.content.Content.TheVariants.{Tree};
ghost use Rattle.sn_limits.specs.declared.kind.Kind.TheVariants.{Directory};
ghost use Rattle.sn_ondisk.specs.Blocks.{block_at};
ghost use Rattle.sn_ondisk.specs.Trees.{store_of, data_block};
ghost use Rattle.sn_image.specs.Inodes.{inode_at, record_at};
ghost use Rattle.sn_image.specs.Names.{names_at, names_of, names_by};
ghost use Rattle.sn_image.specs.Reach.{reach_at};
ghost use Rattle.sn_image.specs.Sound.{HasContent};
ghost use Rattle.sn_dir.specs.Blocks.{CanRead};
ghost use Rattle.sn_sound.specs.Faults.{record_block, IsMisspelt};
ghost use Rattle.sn_marks.specs.Fault.{CountsCheck, Tells};
ghost use Rattle.sn_check_root.specs.Reading.{TreeLies};
ghost use Rattle.sn_check_root.specs.Rules.{Breaks, IsRootInode, IsSoundNumber, IsSpeltWrong};

use crate::contents::inode_of;
use crate::readers::{fault_at, record_block};
use sn_block::{Block, Blocks};
use sn_device::Device;
use sn_dir::{directory_laws, lookup};
use sn_layout::BlockTree;
use sn_layout_node::{Content, INODE_SIZE, Inode, InodeRecord};
use sn_limits::{Kind, Limits};
use sn_marks::CheckFault;
use sn_tree_read::fetch_data;

// Whether a record of a block of the inode file is zeros.
fn is_unused(limits: &Limits, block: &Block, index: usize) -> bool
    requires { index < 32 }
    ensures { IsTrue result ↔ (take 128 (drop (128 * index) block.now) ≡ zeros 128) }
{
    let from = INODE_SIZE * index;
    match InodeRecord::decode(limits, &block[from..from + INODE_SIZE]) {
        Some(InodeRecord::Unused) => true,
        Some(InodeRecord::Used(_)) => false,
        None => false,
    }
}

// Makes the first block of the inode file the one that is lent, and answers whether it is there.
fn fetch_first<D: Device>(
    blocks: &mut Blocks<D>,
    file: &BlockTree,
    top: u32,
) -> Result<bool, CheckFault>
    requires lies { IsTrue D.tells_bytes → TreeLies (D.status (device_of blocks.old)).sectors
        (store_of (reads (D.disk (device_of blocks.old)))) file.now }
    ensures hole { IsTrue D.tells_bytes → IfOk result (λ is_there. is_there ≡ false
        → data_block (store_of (reads (D.disk (device_of blocks.old)))) file.now 0 ≡ zeros 4096) }
    ensures block { IsTrue D.tells_bytes → IfOk result (λ is_there. IsTrue is_there
        → IfSome (fetched_number blocks.new) (λ number. block_at (reads (D.disk (device_of blocks.new))) number
        ≡ data_block (store_of (reads (D.disk (device_of blocks.old)))) file.now 0)) }
    ensures lent { IfOk result (λ is_there. IsTrue is_there → IsSome (fetched_number blocks.new)) }
    ensures fault { IsTrue D.tells_bytes → IfErr result (λ fault. Tells fault (λ damage block. ⊥)) }
    ensures same { IsTrue D.tells_bytes → D.disk (device_of blocks.new) ≡ D.disk (device_of blocks.old) }
    ensures counts { CountsCheck result (D.status (device_of blocks.old)) (D.status (device_of blocks.new)) }
{
    match fetch_data(blocks, file, 0) {
        Ok(found) => Ok(found.is_some()),
        Err(fault) => Err(fault_at(fault, top)),
    }
}

// Tests that one of the first 32 records is zeros.
fn check_unused<D: Device>(
    blocks: &mut Blocks<D>,
    limits: &Limits,
    file: &BlockTree,
    body: u32,
    number: u64,
) -> Result<(), CheckFault>
    requires number { number < 32 }
    requires lies { IsTrue D.tells_bytes → TreeLies (D.status (device_of blocks.old)).sectors
        (store_of (reads (D.disk (device_of blocks.old)))) file.now }
    ensures unused { IsTrue D.tells_bytes → OnOk result (record_at
        (store_of (reads (D.disk (device_of blocks.old)))) file.now number ≡ zeros 128) }
    ensures fault { IsTrue D.tells_bytes → IfErr result (λ fault. Tells fault (Breaks
        (record_at (store_of (reads (D.disk (device_of blocks.old)))) file.now number ≡ zeros 128)
        (record_block (store_of (reads (D.disk (device_of blocks.old)))) file.now body number))) }
    ensures same { IsTrue D.tells_bytes → D.disk (device_of blocks.new) ≡ D.disk (device_of blocks.old) }
    ensures counts { CountsCheck result (D.status (device_of blocks.old)) (D.status (device_of blocks.new)) }
{
    let top = record_block(blocks, file, body, number)?;
    if !fetch_first(blocks, file, top)? {
        return Ok(());
    }
    if !is_unused(limits, blocks.fetched(), number as usize) {
        return Err(CheckFault::misspelt(top));
    }
    Ok(())
}

/// Tests that the two records are zeros that no node can have.
pub(crate) fn check_reserved<D: Device>(
    blocks: &mut Blocks<D>,
    limits: &Limits,
    file: &BlockTree,
    body: u32,
) -> Result<(), CheckFault>
    requires lies { IsTrue D.tells_bytes → TreeLies (D.status (device_of blocks.old)).sectors
        (store_of (reads (D.disk (device_of blocks.old)))) file.now }
    ensures reserved { IsTrue D.tells_bytes → OnOk result ((number : ℕ) → number < 2
        → record_at (store_of (reads (D.disk (device_of blocks.old)))) file.now number ≡ zeros 128) }
    ensures fault { IsTrue D.tells_bytes → IfErr result (λ fault. Tells fault (IsSpeltWrong
        (IsMisspelt limits.now (store_of (reads (D.disk (device_of blocks.old)))) file.now body))) }
    ensures same { IsTrue D.tells_bytes → D.disk (device_of blocks.new) ≡ D.disk (device_of blocks.old) }
    ensures counts { CountsCheck result (D.status (device_of blocks.old)) (D.status (device_of blocks.new)) }
{
    check_unused(blocks, limits, file, body, 0)?;
    check_unused(blocks, limits, file, body, 1)?;
    Ok(())
}

// Tests that no name of the root directory hides the directory of snapshots.
fn check_hidden<D: Device>(
    blocks: &mut Blocks<D>,
    tree: &BlockTree,
    top: u32,
) -> Result<(), CheckFault>
    requires read { IsTrue D.tells_bytes → (i : ℕ) → i < tree.now.size / 4096
        → CanRead (D.status (device_of blocks.old)).sectors (store_of (reads (D.disk (device_of blocks.old)))) tree.now i }
    ensures hidden { IsTrue D.tells_bytes → OnOk result (number_of (codes ".snapshot")
        (names_of (store_of (reads (D.disk (device_of blocks.old)))) (Tree tree.now)) ≡ None) }
    ensures fault { IsTrue D.tells_bytes → IfErr result (λ fault. Tells fault (Breaks (number_of (codes ".snapshot")
        (names_of (store_of (reads (D.disk (device_of blocks.old)))) (Tree tree.now)) ≡ None) top)) }
    ensures same { IsTrue D.tells_bytes → D.disk (device_of blocks.new) ≡ D.disk (device_of blocks.old) }
    ensures counts { CountsCheck result (D.status (device_of blocks.old)) (D.status (device_of blocks.new)) }
{
    match lookup(blocks, tree, b".snapshot") {
        Ok(None) => Ok(()),
        Ok(Some(_)) => Err(CheckFault::misspelt(top)),
        Err(fault) => Err(fault_at(fault, top)),
    }
}

// Tests the names of the root directory, given what it is made of.
fn check_root_content<D: Device>(
    blocks: &mut Blocks<D>,
    content: &Content,
    top: u32,
) -> Result<(), CheckFault>
    requires read { IsTrue D.tells_bytes → (tree : TheTree) → content.now ≡ Tree tree → (i : ℕ) → i < tree.size / 4096
        → CanRead (D.status (device_of blocks.old)).sectors (store_of (reads (D.disk (device_of blocks.old)))) tree i }
    ensures hidden { IsTrue D.tells_bytes → OnOk result (number_of (codes ".snapshot")
        (names_of (store_of (reads (D.disk (device_of blocks.old)))) content.now) ≡ None) }
    ensures fault { IsTrue D.tells_bytes → IfErr result (λ fault. Tells fault (Breaks
        (HasContent (store_of (reads (D.disk (device_of blocks.old)))) Directory content.now × (number_of (codes ".snapshot")
        (names_of (store_of (reads (D.disk (device_of blocks.old)))) content.now) ≡ None)) top)) }
    ensures same { IsTrue D.tells_bytes → D.disk (device_of blocks.new) ≡ D.disk (device_of blocks.old) }
    ensures counts { CountsCheck result (D.status (device_of blocks.old)) (D.status (device_of blocks.new)) }
{
    match content {
        Content::Inline(_) => Err(CheckFault::misspelt(top)),
        Content::Tree(tree) => check_hidden(blocks, tree, top),
    }
}

// Tests that the root is a directory, and its names.
fn check_root_inode<D: Device>(
    blocks: &mut Blocks<D>,
    inode: &Inode,
    top: u32,
) -> Result<(), CheckFault>
    requires read { IsTrue D.tells_bytes → inode.now.kind ≡ Directory → (tree : TheTree) → inode.now.content ≡ Tree tree → (i : ℕ) → i < tree.size / 4096
        → CanRead (D.status (device_of blocks.old)).sectors (store_of (reads (D.disk (device_of blocks.old)))) tree i }
    ensures directory { IsTrue D.tells_bytes → OnOk result (inode.now.kind ≡ Directory) }
    ensures hidden { IsTrue D.tells_bytes → OnOk result (number_of (codes ".snapshot")
        (names_by (store_of (reads (D.disk (device_of blocks.old)))) inode.now.kind inode.now.content) ≡ None) }
    ensures fault { IsTrue D.tells_bytes → IfErr result (λ fault. Tells fault (Breaks
        (IsRootInode (store_of (reads (D.disk (device_of blocks.old)))) inode.now) top)) }
    ensures same { IsTrue D.tells_bytes → D.disk (device_of blocks.new) ≡ D.disk (device_of blocks.old) }
    ensures counts { CountsCheck result (D.status (device_of blocks.old)) (D.status (device_of blocks.new)) }
{
    match inode.kind {
        Kind::File => Err(CheckFault::misspelt(top)),
        Kind::Directory => check_root_content(blocks, &inode.content, top),
    }
}

/// Tests that the root is a directory, and that none of its names hides the directory of snapshots. What
/// is under its number was tested by then.
pub(crate) fn check_top<D: Device>(
    blocks: &mut Blocks<D>,
    limits: &Limits,
    file: &BlockTree,
    body: u32,
) -> Result<(), CheckFault>
    requires lies { IsTrue D.tells_bytes → TreeLies (D.status (device_of blocks.old)).sectors
        (store_of (reads (D.disk (device_of blocks.old)))) file.now }
    requires sound { IsTrue D.tells_bytes → IsSoundNumber limits.now (store_of (reads (D.disk (device_of blocks.old)))) file.now 2 }
    requires reached { IsTrue D.tells_bytes → (block : ℕ) → Contains (reach_at (store_of (reads (D.disk (device_of blocks.old)))) file.now 2) block
        → 8 * block + 8 ≤ (D.status (device_of blocks.old)).sectors }
    ensures root { IsTrue D.tells_bytes → OnOk result (IsSomeAnd (inode_at
        (store_of (reads (D.disk (device_of blocks.old)))) file.now 2) (λ inode. inode.kind ≡ Directory)) }
    ensures hidden { IsTrue D.tells_bytes → OnOk result (number_of (codes ".snapshot") (names_at
        (store_of (reads (D.disk (device_of blocks.old)))) file.now 2) ≡ None) }
    ensures fault { IsTrue D.tells_bytes → IfErr result (λ fault. Tells fault (IsSpeltWrong
        (IsMisspelt limits.now (store_of (reads (D.disk (device_of blocks.old)))) file.now body))) }
    ensures same { IsTrue D.tells_bytes → D.disk (device_of blocks.new) ≡ D.disk (device_of blocks.old) }
    ensures counts { CountsCheck result (D.status (device_of blocks.old)) (D.status (device_of blocks.new)) }
{
    // Where a directory is sound, and is on the device, its names can be read.
    directory_laws();
    let top = record_block(blocks, file, body, 2)?;
    match inode_of(blocks, limits, file, 2, top)? {
        Some(inode) => check_root_inode(blocks, &inode, top),
        None => Err(CheckFault::misspelt(top)),
    }
}
