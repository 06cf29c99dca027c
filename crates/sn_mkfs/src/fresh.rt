//! The first root and its one directory.
ghost use Rattle.std.specs.Prelude.{◌≡◌};
ghost use Rattle.sn_limits.specs.Versions.{limits_written};
ghost use Rattle.sn_layout.specs.RootBody.{IsRootBody};
ghost use Rattle.sn_layout_node.specs.Inode.{IsInode};
ghost use Rattle.sn_mkfs.specs.Fresh.{fresh_root as the_fresh_root, inode_block as the_inode_block, root_directory as the_root_directory};

use sn_acl::{Mode, Permissions};
use sn_layout::{
    Area, BLOCK_SIZE, Block, BlockTree, Geometry, Pointers, RootBody, Snapshots, put_bytes,
};
use sn_layout_node::{Content, INODE_SIZE, Inode, InodeRecord};
use sn_limits::{Kind, Limits};
use sn_walk::ROOT_NUMBER;

/// The first root of a disk: its inode file is the first block of the data area.
pub fn fresh_root(geometry: Geometry) -> RootBody
    ensures value { result ≡ the_fresh_root geometry }
    ensures fits { IsRootBody result }
{
    let mut pointers = Pointers::default();
    pointers.set(0, geometry.start(Area::Data));
    RootBody {
        limits: Limits::WRITTEN,
        generation: 1,
        epoch: 1,
        inode_file: BlockTree {
            size: BLOCK_SIZE as u64,
            pointers,
        },
        snapshots: Snapshots::new(),
    }
}

// The root directory, which has no names yet.
fn root_directory() -> Inode
    ensures value { result ≡ the_root_directory }
    ensures fits { IsInode limits_written result }
{
    let others = Permissions::ALL.difference(Permissions::WRITE);
    Inode {
        kind: Kind::Directory,
        set_gid: false,
        sticky: false,
        objects: Mode {
            owner: Permissions::ALL,
            group: others,
            other: others,
        },
        links: 1,
        owner: 0,
        group: 0,
        acl_block: 0,
        content: Content::Tree(BlockTree {
            size: 0,
            pointers: Pointers::default(),
        }),
    }
}

/// The block of the inode file, in which the root directory alone is used.
pub fn inode_block() -> Block
    ensures { result ≡ the_inode_block }
{
    let mut record = [0; INODE_SIZE];
    InodeRecord::Used(root_directory()).encode(&Limits::WRITTEN, &mut record);
    let mut block = [0; BLOCK_SIZE];
    put_bytes(&mut block, INODE_SIZE * ROOT_NUMBER as usize, &record);
    block
}
