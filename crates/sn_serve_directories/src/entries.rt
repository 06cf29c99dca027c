//! All entries of a listing.
ghost use Rattle.std.specs.Prelude.{◌≡◌};
ghost use Rattle.sn_plan.specs.Follows.{Does};
ghost use Rattle.sn_serve_directories.specs.Entries as entries;

use crate::dots::dots_at;
use crate::entry::entry_at;
use sn_callers::LOOKER;
use sn_fuse_replies::Errno;
use sn_listings::HeldEntry;
use sn_model::{Call, Names, Reply, Word};
use sn_plan::{FileSystem, Server, errno_of, word};

/// What readdir told. The error of one that was refused; `EIO` for a reply that readdir doesn't have.
fn names_in(reply: Reply) -> Result<Names, Errno>
    ensures { result ≡ entries.names_in reply }
{
    match reply {
        Reply::Names(names) => Ok(names),
        Reply::Refused(refusal) => Err(errno_of(refusal.errno)),
        _ => Err(Errno::EIO),
    }
}

/// The names of the directory at a path, as user 0 is told them.
fn names_at<F: FileSystem>(server: &mut Server<F>, path: &[u8]) -> Result<Names, Errno>
    ensures { Does F.did server.old server.new (entries.names_at path.now) result }
{
    let path = word(server.alloc, path)?;
    let reply = server.call(LOOKER, &Call::Readdir { path });
    names_in(reply)
}

/// The entries of these names of a directory, after those before.
fn entries_from<F: FileSystem>(
    server: &mut Server<F>,
    node: u64,
    before: Vec<HeldEntry>,
    names: &[Word],
) -> Result<Vec<HeldEntry>, Errno>
    ensures { Does F.did server.old server.new (entries.entries_from node (entries.images_of before.items) names.now) (entries.images_in result) }
{
    let mut held = before;
    for name in names {
        let entry = entry_at(server, node, name.as_bytes())?;
        let Ok(()) = held.push(entry) else {
            return Err(Errno::ENOMEM);
        };
    }
    Ok(held)
}

/// The entries of a directory that has this path.
fn entries_at<F: FileSystem>(
    server: &mut Server<F>,
    node: u64,
    path: &[u8],
) -> Result<Vec<HeldEntry>, Errno>
    ensures { Does F.did server.old server.new (entries.entries_at node path.now) (entries.images_in result) }
{
    let before = dots_at(server, path)?;
    let names = names_at(server, path)?;
    entries_from(server, node, before, names.as_slice())
}

/// The entries of a directory. One to which no name leads has been removed, and has none.
pub(crate) fn entries_of<F: FileSystem>(
    server: &mut Server<F>,
    node: u64,
) -> Result<Vec<HeldEntry>, Errno>
    ensures { Does F.did server.old server.new (entries.entries_of node) (entries.images_in result) }
{
    let place = server.place(node)?;
    let Some(path) = place else {
        return Ok(Vec::new(server.alloc));
    };
    entries_at(server, node, path.as_slice())
}
