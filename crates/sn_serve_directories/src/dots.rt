//! The first two entries of a listing.
ghost use Rattle.std.specs.Prelude.{◌≡◌, ◌≤◌, length, IfOk, IfErr};
ghost use Rattle.sn_fuse_replies.specs.declared.errno.Errno.TheVariants.{ENOMEM};
ghost use Rattle.sn_plan.specs.Follows.{Does};
ghost use Rattle.sn_serve_directories.specs.Entries as entries;

use sn_fuse_replies::{EntryKind, Errno};
use sn_listings::HeldEntry;
use sn_plan::{FileSystem, Server};
use sn_serve_names::number_at;
use std::alloc::{AllocError, Global};

/// Where the last slash of a path is. 0 where there is none.
fn last_slash(path: &[u8]) -> usize
    ensures at { result ≡ entries.last_slash 0 0 path.now }
    ensures within { result ≤ length path.now }
{
    let mut last = 0;
    for (place, byte) in path.iter().enumerate() {
        if *byte == b'/' {
            last = place;
        }
    }
    last
}

/// The path of the directory above. That above the root is the root.
fn above(path: &[u8]) -> &[u8]
    ensures { result.now ≡ entries.above path.now }
{
    let slash = last_slash(path);
    if slash == 0 { b"/" } else { &path[..slash] }
}

fn pair(alloc: Global, number: u64, over: u64) -> Result<Vec<HeldEntry>, AllocError>
    ensures { IfOk result (λ held. entries.images_of held.items ≡ entries.dots number over) }
{
    let mut held = Vec::new(alloc);
    held.push(HeldEntry::new(alloc, number, EntryKind::Directory, b".")?)?;
    held.push(HeldEntry::new(alloc, over, EntryKind::Directory, b"..")?)?;
    Ok(held)
}

/// The two entries, where these are the numbers. `ENOMEM` where memory is refused.
fn dots(alloc: Global, number: u64, over: u64) -> Result<Vec<HeldEntry>, Errno>
    ensures held { IfOk result (λ held. entries.images_of held.items ≡ entries.dots number over) }
    ensures err { IfErr result (λ e. e ≡ ENOMEM) }
{
    pair(alloc, number, over).or(Err(Errno::ENOMEM))
}

/// The entries of the directory at a path itself, and of the one above.
pub(crate) fn dots_at<F: FileSystem>(
    server: &mut Server<F>,
    path: &[u8],
) -> Result<Vec<HeldEntry>, Errno>
    ensures { Does F.did server.old server.new (entries.dots_at path.now) (entries.images_in result) }
{
    let number = number_at(server, path)?;
    let over = number_at(server, above(path))?;
    dots(server.alloc, number, over)
}
