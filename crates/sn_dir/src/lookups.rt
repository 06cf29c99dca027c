//! The number under a name, and how many names there are.
ghost use Rattle.std.specs.Prelude.{[], ◌≡◌, ℕ, Option as TheOption, ◌==◌, ◌≤◌, ⊤, None, Err, length, IsTrue, IfOk, OnOk};
ghost use Rattle.sn_device.specs.Disk.{reads};
ghost use Rattle.sn_block.specs.Lending.{device_of};
ghost use Rattle.sn_layout_node.specs.Directory.{number_of};
ghost use Rattle.sn_layout_node.specs.declared.content.Content.TheVariants.{Tree};
ghost use Rattle.sn_ondisk.specs.Trees.{store_of, data_block};
ghost use Rattle.sn_image.specs.Names.{names_in, names_of};
ghost use Rattle.sn_tree_read.specs.Counts.{CountsTree};
ghost use Rattle.sn_tree_read.specs.declared.fault.TreeFault.TheVariants.{Damaged};
ghost use Rattle.sn_dir.specs.Blocks.{CanRead, IsUnread, IsDamaged, IsDamagedAt};

use crate::blocks::{block_count, decoded, fetch_block};
use crate::indexes::begin_index;
use sn_block::Blocks;
use sn_device::Device;
use sn_layout::BlockTree;
use sn_tree_read::TreeFault;

// The number under a name in one block of a directory, whose names become known to the directory's index.
fn find_in<D: Device>(
    blocks: &mut Blocks<D>,
    tree: &BlockTree,
    i: u64,
    name: &[u8],
) -> Result<Option<u16>, TreeFault>
    ensures number { IsTrue D.tells_bytes → IfOk result (λ number. number
        ≡ number_of name.now (names_in (data_block (store_of (reads (D.disk (device_of blocks.old)))) tree.now i))) }
    ensures read { IsTrue D.tells_bytes → OnOk result (CanRead (D.status (device_of blocks.old)).sectors
        (store_of (reads (D.disk (device_of blocks.old)))) tree.now i) }
    ensures damaged { IsTrue D.tells_bytes → (block : TheOption ℕ) → result ≡ Err (Damaged block)
        → IsUnread (D.status (device_of blocks.old)).sectors
        (store_of (reads (D.disk (device_of blocks.old)))) tree.now i block }
    ensures same { IsTrue D.tells_bytes → D.disk (device_of blocks.new) ≡ D.disk (device_of blocks.old) }
    ensures counts { CountsTree result (D.status (device_of blocks.old)) (D.status (device_of blocks.new)) }
{
    let number = fetch_block(blocks, tree, i)?;
    blocks.note_names(tree, i);
    let names = decoded(blocks.fetched(), number)?;
    Ok(names.find(name))
}

// How many names there are in one block of a directory.
fn count_in<D: Device>(blocks: &mut Blocks<D>, tree: &BlockTree, i: u64) -> Result<u64, TreeFault>
    ensures count { IsTrue D.tells_bytes → IfOk result (λ count. count
        ≡ length (names_in (data_block (store_of (reads (D.disk (device_of blocks.old)))) tree.now i))) }
    ensures few { IfOk result (λ count. count ≤ 4096) }
    ensures read { IsTrue D.tells_bytes → OnOk result (CanRead (D.status (device_of blocks.old)).sectors
        (store_of (reads (D.disk (device_of blocks.old)))) tree.now i) }
    ensures damaged { IsTrue D.tells_bytes → (block : TheOption ℕ) → result ≡ Err (Damaged block)
        → IsUnread (D.status (device_of blocks.old)).sectors
        (store_of (reads (D.disk (device_of blocks.old)))) tree.now i block }
    ensures same { IsTrue D.tells_bytes → D.disk (device_of blocks.new) ≡ D.disk (device_of blocks.old) }
    ensures counts { CountsTree result (D.status (device_of blocks.old)) (D.status (device_of blocks.new)) }
{
    let number = fetch_block(blocks, tree, i)?;
    let names = decoded(blocks.fetched(), number)?;
    Ok(names.len() as u64)
}

/// The number under a name of a directory. The blocks are read in turn, up to the one that has the name,
/// and `Damaged` comes exactly where one that is read so isn't on the device, is a hole, or doesn't spell
/// names. Where a name occurs twice, the first one counts. Blocks that the directory's index knows to lack the
/// name aren't read again; where the directory has no index it begins one, with the faults of `begin_index`.
///
/// Proved, also of `count` and `is_empty`: The number under a name, how many names there are, and whether there is any, are
/// what the directory means, on any image.
/// Proved, also of `is_empty`, `count` and `names`: Blocks are read in turn, up to where the answer is known, and `Damaged`
/// comes exactly where one that is needed so isn't on the device, is a hole, or doesn't spell names, with that block, if
/// there is one.
/// Proved, also of `count`, `is_empty`, `names` and `begin_index`: Nothing is written.
pub fn lookup<D: Device>(
    blocks: &mut Blocks<D>,
    tree: &BlockTree,
    name: &[u8],
) -> Result<Option<u16>, TreeFault>
    ensures number { IsTrue D.tells_bytes → IfOk result (λ number. number
        ≡ number_of name.now (names_of (store_of (reads (D.disk (device_of blocks.old)))) (Tree tree.now))) }
    ensures whole { IsTrue D.tells_bytes → OnOk result (IsDamaged (λ names. number_of name.now names ≡ None)
        (D.status (device_of blocks.old)).sectors
        (store_of (reads (D.disk (device_of blocks.old)))) tree.now → ⊥) }
    ensures damaged { IsTrue D.tells_bytes → (block : TheOption ℕ) → result ≡ Err (Damaged block)
        → IsDamagedAt (λ names. number_of name.now names ≡ None) (D.status (device_of blocks.old)).sectors
        (store_of (reads (D.disk (device_of blocks.old)))) tree.now block }
    ensures same { IsTrue D.tells_bytes → D.disk (device_of blocks.new) ≡ D.disk (device_of blocks.old) }
    ensures counts { CountsTree result (D.status (device_of blocks.old)) (D.status (device_of blocks.new)) }
{
    begin_index(blocks, tree)?;
    let count = block_count(tree);
    let mut i = blocks.next_block(tree, name, 0);
    while i < count {
        let found = find_in(blocks, tree, i, name)?;
        if found.is_some() {
            return Ok(found);
        }
        i = blocks.next_block(tree, name, i + 1);
    }
    Ok(None)
}

/// How many names a directory has. All its blocks are read, and `Damaged` comes exactly where one of them
/// isn't on the device, is a hole, or doesn't spell names.
pub fn count<D: Device>(blocks: &mut Blocks<D>, tree: &BlockTree) -> Result<u64, TreeFault>
    ensures count { IsTrue D.tells_bytes → IfOk result (λ count. count
        ≡ length (names_of (store_of (reads (D.disk (device_of blocks.old)))) (Tree tree.now))) }
    ensures whole { IsTrue D.tells_bytes → OnOk result (IsDamaged (λ names. ⊤)
        (D.status (device_of blocks.old)).sectors
        (store_of (reads (D.disk (device_of blocks.old)))) tree.now → ⊥) }
    ensures damaged { IsTrue D.tells_bytes → (block : TheOption ℕ) → result ≡ Err (Damaged block)
        → IsDamagedAt (λ names. ⊤) (D.status (device_of blocks.old)).sectors
        (store_of (reads (D.disk (device_of blocks.old)))) tree.now block }
    ensures same { IsTrue D.tells_bytes → D.disk (device_of blocks.new) ≡ D.disk (device_of blocks.old) }
    ensures counts { CountsTree result (D.status (device_of blocks.old)) (D.status (device_of blocks.new)) }
{
    let mut count = 0;
    for i in 0..block_count(tree) {
        let names = count_in(blocks, tree, i)?;
        count += names;
    }
    Ok(count)
}

/// Whether a directory has no names. The blocks are read in turn, up to the first that has one, and
/// `Damaged` comes exactly where one that is read so isn't on the device, is a hole, or doesn't spell names.
pub fn is_empty<D: Device>(blocks: &mut Blocks<D>, tree: &BlockTree) -> Result<bool, TreeFault>
    ensures none { IsTrue D.tells_bytes → IfOk result (λ is_empty. is_empty
        ≡ (length (names_of (store_of (reads (D.disk (device_of blocks.old)))) (Tree tree.now)) == 0)) }
    ensures whole { IsTrue D.tells_bytes → OnOk result (IsDamaged (λ names. names ≡ [])
        (D.status (device_of blocks.old)).sectors
        (store_of (reads (D.disk (device_of blocks.old)))) tree.now → ⊥) }
    ensures damaged { IsTrue D.tells_bytes → (block : TheOption ℕ) → result ≡ Err (Damaged block)
        → IsDamagedAt (λ names. names ≡ []) (D.status (device_of blocks.old)).sectors
        (store_of (reads (D.disk (device_of blocks.old)))) tree.now block }
    ensures same { IsTrue D.tells_bytes → D.disk (device_of blocks.new) ≡ D.disk (device_of blocks.old) }
    ensures counts { CountsTree result (D.status (device_of blocks.old)) (D.status (device_of blocks.new)) }
{
    for i in 0..block_count(tree) {
        let names = count_in(blocks, tree, i)?;
        if names > 0 {
            return Ok(false);
        }
    }
    Ok(true)
}
