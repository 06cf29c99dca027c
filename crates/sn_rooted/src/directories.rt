//! The names of a directory.
ghost use Rattle.std.specs.Prelude.{◌≡◌, ◌⊎◌, ⊤, ℕ, ◌/◌, ◌<◌, None, Some, Option as TheOption, Err, map, Contains, IsTrue, IfOk, IfSome};
ghost use Rattle.std.specs.FinMap as fin;
ghost use Rattle.sn_block.specs.Lending.{device_of};
ghost use Rattle.sn_dir.specs.Blocks.{CanRead};
ghost use Rattle.sn_dir.specs.declared.listings.ListedName.{ListedName as TheName};
ghost use Rattle.sn_image.specs.Inodes.{inode_at};
ghost use Rattle.sn_image.specs.Names.{names_at};
ghost use Rattle.sn_inode.specs.Unread.{IsUnreadRecord};
ghost use Rattle.sn_layout_node.specs.Directory.{number_of};
ghost use Rattle.sn_model.specs.Seen.{names_of};
ghost use Rattle.sn_model.specs.Tree.{link_to, viewed};
ghost use Rattle.sn_tree_read.specs.Counts.{CountsTree};
ghost use Rattle.sn_tree_read.specs.declared.fault.TreeFault.TheVariants.{Damaged};
ghost use Rattle.sn_rooted.specs.Nodes.{names_if, names_tree, names_tree_if};
ghost use Rattle.sn_rooted.specs.Roots.{IsSoundOn, store_on, tree_on};
ghost use Rattle.sn_rooted.specs.Unread.{HasUnreadNames};

use crate::inodes::inode_of;
use sn_block::Blocks;
use sn_device::Device;
use sn_dir::{ListedName, directory_laws, lookup};
use sn_layout::BlockTree;
use sn_layout_node::{Content, Inode};
use sn_limits::{Kind, Limits};
use sn_tree_read::TreeFault;
use std::alloc::Global;

fn names_tree(inode: &Inode) -> Option<BlockTree>
    ensures { result ≡ names_tree inode.now.kind inode.now.content }
{
    match (inode.kind, &inode.content) {
        (Kind::Directory, Content::Tree(tree)) => Some(*tree),
        _ => None,
    }
}

// The tree that a directory has its names in, and `None` where the number isn't a directory's. Where the
// root is sound, each of its blocks can be read.
fn directory_at<D: Device>(
    blocks: &mut Blocks<D>,
    limits: &Limits,
    file: &BlockTree,
    number: u16,
) -> Result<Option<BlockTree>, TreeFault>
    ensures names { IsTrue D.tells_bytes → IfOk result (λ tree. names_at (store_on blocks.old) file.now number
        ≡ names_if (store_on blocks.old) tree) }
    ensures tree { IsTrue D.tells_bytes → IfOk result (λ tree. tree ≡ names_tree_if (inode_at (store_on blocks.old) file.now number)) }
    ensures sound { IsTrue D.tells_bytes → IsSoundOn blocks.old limits.now file.now → IfOk result (λ found. IfSome found (λ tree. (i : ℕ)
        → i < tree.size / 4096 → CanRead (D.status (device_of blocks.old)).sectors (store_on blocks.old) tree i)) }
    ensures damaged { IsTrue D.tells_bytes → IsSoundOn blocks.old limits.now file.now → (block : TheOption ℕ) → result ≡ Err (Damaged block) → ⊥ }
    ensures unread { IsTrue D.tells_bytes → (block : TheOption ℕ) → result ≡ Err (Damaged block)
        → IsUnreadRecord limits.now (D.status (device_of blocks.old)).sectors (store_on blocks.old) file.now number block }
    ensures same { IsTrue D.tells_bytes → D.disk (device_of blocks.new) ≡ D.disk (device_of blocks.old) }
    ensures counts { CountsTree result (D.status (device_of blocks.old)) (D.status (device_of blocks.new)) }
{
    directory_laws();
    let Some(inode) = inode_of(blocks, limits, file, number)? else {
        return Ok(None);
    };
    Ok(names_tree(&inode))
}

/// The number that a name has in a directory of a root's tree, and `None` where the number isn't a
/// directory's. Its blocks are read in turn, up to the one that has the name. `Damaged` is returned only where
/// its record or one of these blocks can't be read, with that block, and never where the root is sound. Memory
/// is taken for blocks that aren't kept.
pub fn link<D: Device>(
    blocks: &mut Blocks<D>,
    limits: &Limits,
    file: &BlockTree,
    directory: u16,
    name: &[u8],
) -> Result<Option<u16>, TreeFault>
    ensures found { IsTrue D.tells_bytes
        → IfOk result (λ number. number ≡ (viewed (tree_on blocks.old file.now)).link directory name.now) }
    ensures damaged { IsTrue D.tells_bytes → IsSoundOn blocks.old limits.now file.now → (block : TheOption ℕ) → result ≡ Err (Damaged block) → ⊥ }
    ensures unread { IsTrue D.tells_bytes → (block : TheOption ℕ) → result ≡ Err (Damaged block)
        → IsUnreadRecord limits.now (D.status (device_of blocks.old)).sectors (store_on blocks.old) file.now directory block
        ⊎ HasUnreadNames (λ names. number_of name.now names ≡ None) (D.status (device_of blocks.old)).sectors (store_on blocks.old) file.now directory block }
    ensures same { IsTrue D.tells_bytes → D.disk (device_of blocks.new) ≡ D.disk (device_of blocks.old) }
    ensures counts { CountsTree result (D.status (device_of blocks.old)) (D.status (device_of blocks.new)) }
{
    match directory_at(blocks, limits, file, directory)? {
        Some(tree) => lookup(blocks, &tree, name),
        None => Ok(None),
    }
}

/// The names of a directory of a root's tree in the order of their bytes, with their numbers, and none
/// where the number isn't a directory's. `Damaged` is returned only where its record or one of its blocks
/// can't be read, with that block, and never where the root is sound. Memory is taken for the answer, and
/// for blocks that aren't kept.
pub fn names<D: Device>(
    alloc: Global,
    blocks: &mut Blocks<D>,
    limits: &Limits,
    file: &BlockTree,
    directory: u16,
) -> Result<Vec<ListedName>, TreeFault>
    ensures names { IsTrue D.tells_bytes → IsSoundOn blocks.old limits.now file.now
        → IfOk result (λ names. map (λ (listed : TheName). listed.name) names.items ≡ names_of (tree_on blocks.old file.now) directory) }
    ensures numbers { IsTrue D.tells_bytes → IsSoundOn blocks.old limits.now file.now
        → IfOk result (λ names. (listed : TheName) → Contains names.items listed
        → fin.get (tree_on blocks.old file.now).links (link_to directory listed.name) ≡ Some listed.number) }
    ensures damaged { IsTrue D.tells_bytes → IsSoundOn blocks.old limits.now file.now → (block : TheOption ℕ) → result ≡ Err (Damaged block) → ⊥ }
    ensures unread { IsTrue D.tells_bytes → (block : TheOption ℕ) → result ≡ Err (Damaged block)
        → IsUnreadRecord limits.now (D.status (device_of blocks.old)).sectors (store_on blocks.old) file.now directory block
        ⊎ HasUnreadNames (λ names. ⊤) (D.status (device_of blocks.old)).sectors (store_on blocks.old) file.now directory block }
    ensures same { IsTrue D.tells_bytes → D.disk (device_of blocks.new) ≡ D.disk (device_of blocks.old) }
    ensures counts { CountsTree result (D.status (device_of blocks.old)) (D.status (device_of blocks.new)) }
{
    match directory_at(blocks, limits, file, directory)? {
        Some(tree) => sn_dir::names(alloc, blocks, &tree),
        None => Ok(Vec::new(alloc)),
    }
}
