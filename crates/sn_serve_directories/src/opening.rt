//! OPENDIR and RELEASEDIR.
ghost use Rattle.std.specs.Prelude.{◌≡◌, ℕ, None, Some, IfOk, OnErr};
ghost use Rattle.sn_listings.specs.Held.{Changes, node_of, unread};
ghost use Rattle.sn_listings.specs.Told.{directory_at};
ghost use Rattle.sn_plan.specs.Asking.{login_by};
ghost use Rattle.sn_plan.specs.Follows.{Does};
ghost use Rattle.sn_serve_directories.specs.Messages as messages;

use sn_fuse_replies::{Errno, Opened};
use sn_listings::Listings;
use sn_model::{Call, Reply};
use sn_plan::{Asker, FileSystem, Server, errno_of, word};

/// That readdir told names. The error of one that was refused; `EIO` for a reply that readdir doesn't have.
fn is_listed(reply: &Reply) -> Result<(), Errno>
    ensures { result ≡ messages.is_listed reply.now }
{
    match reply {
        Reply::Names(_) => Ok(()),
        Reply::Refused(refusal) => Err(errno_of(refusal.errno)),
        _ => Err(Errno::EIO),
    }
}

/// That who asks may list what is at a path.
fn lists<F: FileSystem>(server: &mut Server<F>, asker: &Asker<'_>, path: &[u8]) -> Result<(), Errno>
    ensures { Does F.did server.old server.new (messages.lists (login_by asker.now) path.now) result }
{
    let path = word(server.alloc, path)?;
    let reply = server.ask(asker, &Call::Readdir { path })?;
    is_listed(&reply)
}

/// That who asks may list a directory.
fn may_list<F: FileSystem>(
    server: &mut Server<F>,
    asker: &Asker<'_>,
    node: u64,
) -> Result<(), Errno>
    ensures { Does F.did server.old server.new (messages.may_list (login_by asker.now) node) result }
{
    let place = server.place(node)?;
    let Some(path) = place else {
        return Ok(());
    };
    lists(server, asker, path.as_slice())
}

/// OPENDIR: opens a directory, whose listing is still to be read. Of a directory to which no name leads nothing is asked.
///
/// Proved: OPENDIR is one readdir as who asks, by a path that was looked at; the handle that it gives stands for the node, which is held open.
pub fn opendir<F: FileSystem>(
    server: &mut Server<F>,
    listings: &mut Listings,
    asker: &Asker<'_>,
    node: u64,
) -> Result<Opened, Errno>
    ensures plan { (handle : ℕ) × Does F.did server.old server.new (messages.opendir (login_by asker.now) node handle) result }
    ensures vacant { IfOk result (λ opened. directory_at listings.old opened.handle ≡ None) }
    ensures opened { IfOk result (λ opened. Changes (directory_at listings.old) (directory_at listings.new) opened.handle (Some (unread node))) }
    ensures err { OnErr result ((handle : ℕ) → directory_at listings.new handle ≡ directory_at listings.old handle) }
{
    may_list(server, asker, node)?;
    let Ok(handle) = listings.open(node) else {
        return Err(Errno::ENOMEM);
    };
    server.hold(node);
    Ok(Opened { handle, flags: 0 })
}

/// RELEASEDIR: a directory is closed, and its listing freed. `EBADF` where the handle has none.
///
/// Proved: RELEASEDIR frees what was held for the handle, and holds its node no longer.
pub fn releasedir<F: FileSystem>(
    server: &mut Server<F>,
    listings: &mut Listings,
    handle: u64,
) -> Result<(), Errno>
    ensures plan { Does F.did server.old server.new (messages.releasedir (node_of (directory_at listings.old handle))) result }
    ensures released { Changes (directory_at listings.old) (directory_at listings.new) handle None }
{
    match listings.release(handle) {
        Some(node) => {
            server.let_go(node);
            Ok(())
        }
        None => Err(Errno::EBADF),
    }
}
