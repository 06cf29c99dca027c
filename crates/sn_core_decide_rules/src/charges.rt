//! What calls are charged: the blocks that a consistency point may take for their outcomes, by the numbers
//! of the version.
ghost use Rattle.std.specs.Prelude.{◌≡◌, ◌+◌, ◌*◌, ◌≤◌, ◌^◌};
ghost use Rattle.sn_model.specs.FileCalls as files;

use sn_limits::Limits;

/// A node gets a name or loses one: its inode, that of the directory, and the block of the name.
///
/// Proved, also of `unlink_charge`, `rename_charge`, `size_charge`, `write_charge`, `attributes_charge` and
/// `blocks_spanned`: What a call is charged is the model's charge, said once for each kind of change, for calls and for the
/// changes of a log; so is how many blocks a write spans.
pub fn name_charge(limits: &Limits) -> u64
    ensures { result ≡ 2 * limits.now.inode_charge + limits.now.block_charge }
{
    2 * u64::from(limits.inode_charge) + u64::from(limits.block_charge)
}

/// A file loses a name: as [`name_charge`], and the file may stay without a name while it is open.
pub fn unlink_charge(limits: &Limits) -> u64
    ensures { result ≡ 3 * limits.now.inode_charge + limits.now.block_charge }
{
    3 * u64::from(limits.inode_charge) + u64::from(limits.block_charge)
}

/// A node is renamed: its inode, those of both directories, and what it replaces, which may stay
/// without a name; and the blocks of both names.
pub fn rename_charge(limits: &Limits) -> u64
    ensures { result ≡ 5 * limits.now.inode_charge + 2 * limits.now.block_charge }
{
    5 * u64::from(limits.inode_charge) + 2 * u64::from(limits.block_charge)
}

/// A file gets another size: its inode and its last block.
pub fn size_charge(limits: &Limits) -> u64
    ensures { result ≡ files.file_charge limits.now 1 }
{
    u64::from(limits.inode_charge) + u64::from(limits.block_charge)
}

/// Attributes of a node are set: its inode.
pub fn attributes_charge(limits: &Limits) -> u64
    ensures { result ≡ limits.now.inode_charge }
{
    u64::from(limits.inode_charge)
}

/// How many blocks of 4,096 bytes so many bytes from an offset on are in.
pub fn blocks_spanned(offset: u64, count: usize) -> u64
    ensures spanned { result ≡ files.blocks_spanned offset count }
    ensures few { result ≤ 2 ^ 53 }
{
    let end = u128::from(offset) + count as u128;
    let last = end.saturating_sub(1) / 4096;
    (last.saturating_sub(u128::from(offset / 4096)) + 1) as u64
}

/// So many blocks of a file are written: these and its inode.
pub fn write_charge(limits: &Limits, blocks: u64) -> u128
    requires { blocks ≤ 2 ^ 53 }
    ensures exact { result ≡ files.file_charge limits.now blocks }
    ensures most { result ≤ limits.now.inode_charge + limits.now.block_charge * 2 ^ 53 }
{
    u128::from(limits.inode_charge) + u128::from(limits.block_charge) * u128::from(blocks)
}

/// A snapshot is brought back in which so many files have no name: the inodes of these, which go.
pub fn restore_charge(limits: &Limits, nameless: u32) -> u64
    ensures { result ≡ limits.now.inode_charge * nameless }
{
    u64::from(limits.inode_charge) * u64::from(nameless)
}
