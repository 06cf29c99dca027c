//! Counting the names of all directories.
ghost use Rattle.std.specs.Prelude.{◌≡◌, ◌∷◌, ◌/◌, ◌<◌, ◌≤◌, [], false, Some, IsTrue, IfErr, IfNone, IfSome, OnOk};
ghost use Rattle.sn_device.specs.Disk.{reads};
ghost use Rattle.sn_block.specs.Lending.{device_of};
ghost use Rattle.sn_layout.specs.declared.tree.BlockTree.{BlockTree as TheTree};
ghost use Rattle.sn_layout_node.specs.declared.content.Content.TheVariants.{Tree};
ghost use Rattle.sn_ondisk.specs.Trees.{store_of, data_block};
ghost use Rattle.sn_image.specs.Inodes.{inode_at};
ghost use Rattle.sn_image.specs.Names.{names_at, names_by, names_in, names_of};
ghost use Rattle.sn_marks.specs.Fault.{CountsCheck, Tells};
ghost use Rattle.sn_check_root.specs.Reading.{TreeLies};
ghost use Rattle.sn_census.specs.Counts.{AreCounted, Counts, HasRoom, HasSpare, blamed, one_name};
ghost use Rattle.sn_census.specs.Faults.{IsAt, StandsInLinks};
ghost use Rattle.sn_census.specs.Roots.{IsDirectoryOf, IsReadable};
ghost use Rattle.sn_census.specs.Rows.{row_at};

use crate::readers::{
    fetch_names, inode_of, link_fault, record_count, record_fault, spelled_names,
};
use crate::table::{Census, Row};
use sn_block::Blocks;
use sn_check_root::pointer_to;
use sn_device::Device;
use sn_dir::block_count;
use sn_layout::BlockTree;
use sn_layout_node::{Content, DirectoryBlock, Inode};
use sn_limits::{Kind, Limits};
use sn_marks::CheckFault;

// Counts a name of a directory, if the number that it denotes is to have one more.
fn count_name(census: &mut Census, directory: u16, number: u16) -> bool
    ensures counted { IsTrue result → Counts directory (one_name number ∷ []) census.old census.new }
    ensures spare { result ≡ false → (row_at census.old number).links ≤ (row_at census.old number).names }
    ensures kept { result ≡ false → census.new ≡ census.old }
{
    let row = census.row(number);
    if row.names >= row.links {
        return false;
    }
    census.set_row(
        number,
        Row {
            names: row.names + 1,
            parent: directory,
            ..row
        },
    );
    true
}

// Counts the names of one block of a directory, and answers the first number that has one too many.
fn count_entries(census: &mut Census, directory: u16, names: &DirectoryBlock<'_>) -> Option<u16>
    ensures counted { IfNone result (Counts directory names.now census.old census.new) }
    ensures spare { IfSome result (λ number. HasSpare names.now number census.old census.new) }
{
    for entry in names.entries() {
        if !count_name(census, directory, entry.number) {
            return Some(entry.number);
        }
    }
    None
}

// The fault of a number with a name too many: of an unused one at the block that has the name.
fn spare_fault<D: Device>(
    census: &Census,
    blocks: &mut Blocks<D>,
    file: &BlockTree,
    body: u32,
    pointer: u32,
    number: u16,
) -> Result<(), CheckFault>
    requires lies { IsTrue D.tells_bytes → TreeLies (D.status (device_of blocks.old)).sectors
        (store_of (reads (D.disk (device_of blocks.old)))) file.now }
    ensures never { OnOk result ⊥ }
    ensures fault { IsTrue D.tells_bytes → IfErr result (λ fault. Tells fault (IsAt (blamed
        (store_of (reads (D.disk (device_of blocks.old)))) file.now body pointer number (row_at census.now number).kind))) }
    ensures same { IsTrue D.tells_bytes → D.disk (device_of blocks.new) ≡ D.disk (device_of blocks.old) }
    ensures counts { CountsCheck result (D.status (device_of blocks.old)) (D.status (device_of blocks.new)) }
{
    match census.row(number).kind {
        Some(_kind) => record_fault(blocks, file, body, number),
        None => Err(link_fault(pointer)),
    }
}

// Counts the names of one block of a directory. The first of a number that has one too many is reported.
fn count_block<D: Device>(
    census: &mut Census,
    blocks: &mut Blocks<D>,
    limits: &Limits,
    file: &BlockTree,
    body: u32,
    directory: u16,
    tree: &BlockTree,
    i: u64,
) -> Result<(), CheckFault>
    requires readable { IsTrue D.tells_bytes → IsReadable limits.now (D.status (device_of blocks.old)).sectors
        (store_of (reads (D.disk (device_of blocks.old)))) file.now }
    requires tree { IsTrue D.tells_bytes → IsDirectoryOf (store_of (reads (D.disk (device_of blocks.old)))) file.now directory tree.now }
    requires within { i < tree.now.size / 4096 }
    requires room { IsTrue D.tells_bytes → HasRoom (store_of (reads (D.disk (device_of blocks.old)))) file.now
        (names_in (data_block (store_of (reads (D.disk (device_of blocks.old)))) tree.now i)) census.old }
    ensures counted { IsTrue D.tells_bytes → OnOk result (Counts directory
        (names_in (data_block (store_of (reads (D.disk (device_of blocks.old)))) tree.now i)) census.old census.new) }
    ensures fault { IsTrue D.tells_bytes → IfErr result (λ fault. Tells fault
        (StandsInLinks (store_of (reads (D.disk (device_of blocks.old)))) file.now body)) }
    ensures same { IsTrue D.tells_bytes → D.disk (device_of blocks.new) ≡ D.disk (device_of blocks.old) }
    ensures counts { CountsCheck result (D.status (device_of blocks.old)) (D.status (device_of blocks.new)) }
{
    let pointer = pointer_to(blocks, tree, i, body)?;
    fetch_names(blocks, tree, body, i)?;
    let names = spelled_names(blocks.fetched(), body)?;
    match count_entries(census, directory, &names) {
        Some(number) => spare_fault(census, blocks, file, body, pointer, number),
        None => Ok(()),
    }
}

// Counts the names of a directory, block after block.
fn count_tree<D: Device>(
    census: &mut Census,
    blocks: &mut Blocks<D>,
    limits: &Limits,
    file: &BlockTree,
    body: u32,
    directory: u16,
    tree: &BlockTree,
) -> Result<(), CheckFault>
    requires readable { IsTrue D.tells_bytes → IsReadable limits.now (D.status (device_of blocks.old)).sectors
        (store_of (reads (D.disk (device_of blocks.old)))) file.now }
    requires tree { IsTrue D.tells_bytes → IsDirectoryOf (store_of (reads (D.disk (device_of blocks.old)))) file.now directory tree.now }
    requires room { IsTrue D.tells_bytes → HasRoom (store_of (reads (D.disk (device_of blocks.old)))) file.now
        (names_of (store_of (reads (D.disk (device_of blocks.old)))) (Tree tree.now)) census.old }
    ensures counted { IsTrue D.tells_bytes → OnOk result (Counts directory
        (names_of (store_of (reads (D.disk (device_of blocks.old)))) (Tree tree.now)) census.old census.new) }
    ensures fault { IsTrue D.tells_bytes → IfErr result (λ fault. Tells fault
        (StandsInLinks (store_of (reads (D.disk (device_of blocks.old)))) file.now body)) }
    ensures same { IsTrue D.tells_bytes → D.disk (device_of blocks.new) ≡ D.disk (device_of blocks.old) }
    ensures counts { CountsCheck result (D.status (device_of blocks.old)) (D.status (device_of blocks.new)) }
{
    for i in 0..block_count(tree) {
        count_block(census, blocks, limits, file, body, directory, tree, i)?;
    }
    Ok(())
}

// Counts the names that a directory has, given what it is made of.
fn count_content<D: Device>(
    census: &mut Census,
    blocks: &mut Blocks<D>,
    limits: &Limits,
    file: &BlockTree,
    body: u32,
    directory: u16,
    content: &Content,
) -> Result<(), CheckFault>
    requires readable { IsTrue D.tells_bytes → IsReadable limits.now (D.status (device_of blocks.old)).sectors
        (store_of (reads (D.disk (device_of blocks.old)))) file.now }
    requires tree { IsTrue D.tells_bytes → (tree : TheTree) → content.now ≡ Tree tree
        → IsDirectoryOf (store_of (reads (D.disk (device_of blocks.old)))) file.now directory tree }
    requires room { IsTrue D.tells_bytes → HasRoom (store_of (reads (D.disk (device_of blocks.old)))) file.now
        (names_of (store_of (reads (D.disk (device_of blocks.old)))) content.now) census.old }
    ensures counted { IsTrue D.tells_bytes → OnOk result (Counts directory
        (names_of (store_of (reads (D.disk (device_of blocks.old)))) content.now) census.old census.new) }
    ensures fault { IsTrue D.tells_bytes → IfErr result (λ fault. Tells fault
        (StandsInLinks (store_of (reads (D.disk (device_of blocks.old)))) file.now body)) }
    ensures same { IsTrue D.tells_bytes → D.disk (device_of blocks.new) ≡ D.disk (device_of blocks.old) }
    ensures counts { CountsCheck result (D.status (device_of blocks.old)) (D.status (device_of blocks.new)) }
{
    match content {
        Content::Inline(_) => Ok(()),
        Content::Tree(tree) => count_tree(census, blocks, limits, file, body, directory, tree),
    }
}

// Counts the names that an inode has: none, if it isn't a directory's.
fn count_inode<D: Device>(
    census: &mut Census,
    blocks: &mut Blocks<D>,
    limits: &Limits,
    file: &BlockTree,
    body: u32,
    number: u16,
    inode: &Inode,
) -> Result<(), CheckFault>
    requires readable { IsTrue D.tells_bytes → IsReadable limits.now (D.status (device_of blocks.old)).sectors
        (store_of (reads (D.disk (device_of blocks.old)))) file.now }
    requires inode { IsTrue D.tells_bytes → inode_at (store_of (reads (D.disk (device_of blocks.old)))) file.now number ≡ Some inode.now }
    requires room { IsTrue D.tells_bytes → HasRoom (store_of (reads (D.disk (device_of blocks.old)))) file.now
        (names_by (store_of (reads (D.disk (device_of blocks.old)))) inode.now.kind inode.now.content) census.old }
    ensures counted { IsTrue D.tells_bytes → OnOk result (Counts number
        (names_by (store_of (reads (D.disk (device_of blocks.old)))) inode.now.kind inode.now.content) census.old census.new) }
    ensures fault { IsTrue D.tells_bytes → IfErr result (λ fault. Tells fault
        (StandsInLinks (store_of (reads (D.disk (device_of blocks.old)))) file.now body)) }
    ensures same { IsTrue D.tells_bytes → D.disk (device_of blocks.new) ≡ D.disk (device_of blocks.old) }
    ensures counts { CountsCheck result (D.status (device_of blocks.old)) (D.status (device_of blocks.new)) }
{
    match inode.kind {
        Kind::File => Ok(()),
        Kind::Directory => {
            count_content(census, blocks, limits, file, body, number, &inode.content)
        }
    }
}

// Counts the names under a number.
fn count_number<D: Device>(
    census: &mut Census,
    blocks: &mut Blocks<D>,
    limits: &Limits,
    file: &BlockTree,
    body: u32,
    number: u16,
) -> Result<(), CheckFault>
    requires readable { IsTrue D.tells_bytes → IsReadable limits.now (D.status (device_of blocks.old)).sectors
        (store_of (reads (D.disk (device_of blocks.old)))) file.now }
    requires room { IsTrue D.tells_bytes → HasRoom (store_of (reads (D.disk (device_of blocks.old)))) file.now
        (names_at (store_of (reads (D.disk (device_of blocks.old)))) file.now number) census.old }
    ensures counted { IsTrue D.tells_bytes → OnOk result (Counts number
        (names_at (store_of (reads (D.disk (device_of blocks.old)))) file.now number) census.old census.new) }
    ensures fault { IsTrue D.tells_bytes → IfErr result (λ fault. Tells fault
        (StandsInLinks (store_of (reads (D.disk (device_of blocks.old)))) file.now body)) }
    ensures same { IsTrue D.tells_bytes → D.disk (device_of blocks.new) ≡ D.disk (device_of blocks.old) }
    ensures counts { CountsCheck result (D.status (device_of blocks.old)) (D.status (device_of blocks.new)) }
{
    match inode_of(blocks, limits, file, body, number)? {
        Some(inode) => count_inode(census, blocks, limits, file, body, number, &inode),
        None => Ok(()),
    }
}

/// Counts the names of all directories. The first of a number that has one too many is reported. Before, the
/// rows are loaded, and no name is counted.
pub(crate) fn count_names<D: Device>(
    census: &mut Census,
    blocks: &mut Blocks<D>,
    limits: &Limits,
    file: &BlockTree,
    body: u32,
) -> Result<(), CheckFault>
    requires readable { IsTrue D.tells_bytes → IsReadable limits.now (D.status (device_of blocks.old)).sectors
        (store_of (reads (D.disk (device_of blocks.old)))) file.now }
    requires begun { IsTrue D.tells_bytes → AreCounted (store_of (reads (D.disk (device_of blocks.old)))) file.now 2 census.old }
    ensures counted { IsTrue D.tells_bytes → OnOk result (AreCounted
        (store_of (reads (D.disk (device_of blocks.old)))) file.now (file.now.size / 128) census.new) }
    ensures fault { IsTrue D.tells_bytes → IfErr result (λ fault. Tells fault
        (StandsInLinks (store_of (reads (D.disk (device_of blocks.old)))) file.now body)) }
    ensures same { IsTrue D.tells_bytes → D.disk (device_of blocks.new) ≡ D.disk (device_of blocks.old) }
    ensures counts { CountsCheck result (D.status (device_of blocks.old)) (D.status (device_of blocks.new)) }
{
    for number in 2..record_count(file) {
        count_number(census, blocks, limits, file, body, number as u16)?;
    }
    Ok(())
}
