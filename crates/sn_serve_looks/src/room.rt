//! STATFS.
ghost use Rattle.std.specs.Prelude.{◌≡◌, Ok};
ghost use Rattle.sn_plan.specs.Follows.{Does};
ghost use Rattle.sn_serve_looks.specs.Messages as messages;
ghost use Rattle.sn_serve_looks.specs.Room as room;

use sn_fuse_replies::Statistics;
use sn_plan::{FileSystem, Server, Space};

/// The blocks that are left for removals.
const RESERVE: u64 = 64;

/// How many files and directories there can be, the root included.
const FILES: u64 = 65_534;

const NAME_LENGTH: u32 = 255;

const BLOCK_SIZE: u32 = 4096;

fn statistics_of(space: Space) -> Statistics
    ensures { result ≡ room.statistics_of space }
{
    let free = space.left.saturating_sub(RESERVE);
    Statistics {
        blocks: space.blocks,
        free,
        available: free,
        files: FILES,
        free_files: free.min(FILES),
        block_size: BLOCK_SIZE,
        name_length: NAME_LENGTH,
        fragment_size: BLOCK_SIZE,
    }
}

/// STATFS: how much room there is, as statvfs(3) tells it.
///
/// Proved: STATFS tells the blocks that are left, less a reserve of 64.
pub fn statfs<F: FileSystem>(server: &mut Server<F>) -> Statistics
    ensures { Does F.did server.old server.new messages.statfs (Ok result) }
{
    let space = server.space();
    statistics_of(space)
}
