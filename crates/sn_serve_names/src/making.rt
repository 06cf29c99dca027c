//! Directories and snapshots that are made.
ghost use Rattle.sn_plan.specs.Asking.{login_by, maker_by};
ghost use Rattle.sn_plan.specs.Follows.{Does};
ghost use Rattle.sn_serve_names.specs.Messages as messages;

use crate::asking::does;
use crate::giving::give_owner;
use crate::meeting::made_at;
use crate::names::{Child, child_of, is_snapshots};
use sn_fuse_replies::{Entry, Errno};
use sn_model::Call;
use sn_plan::{Asker, FileSystem, Server, done, word};

/// How many modes the permission bits make.
const MODES: u32 = 512;

/// Makes a snapshot.
fn make_snapshot<F: FileSystem>(
    server: &mut Server<F>,
    asker: &Asker<'_>,
    child: &Child,
) -> Result<(), Errno>
    ensures { Does F.did server.old server.new (messages.makes_snapshot (login_by asker.now) child.now) result }
{
    let name = word(server.alloc, child.name())?;
    does(server, asker, &Call::SnapCreate { name })
}

/// Makes a directory, with the umask of the message.
fn make_directory<F: FileSystem>(
    server: &mut Server<F>,
    asker: &Asker<'_>,
    child: &Child,
    mode: u32,
    umask: u32,
) -> Result<(), Errno>
    ensures { Does F.did server.old server.new (messages.makes_directory (login_by asker.now) child.now mode umask) result }
{
    let path = word(server.alloc, child.path())?;
    let mode = (mode % MODES) as u16;
    let mask = (umask % MODES) as u16;
    let reply = server.ask_masked(asker, mask, &Call::Mkdir { path, mode })?;
    done(&reply)
}

/// Makes a directory, which is its maker's.
fn make_owned<F: FileSystem>(
    server: &mut Server<F>,
    asker: &Asker<'_>,
    parent: u64,
    child: &Child,
    mode: u32,
    umask: u32,
) -> Result<(), Errno>
    ensures { Does F.did server.old server.new (messages.makes_owned (login_by asker.now) (maker_by asker.now) parent child.now mode umask) result }
{
    make_directory(server, asker, child, mode, umask)?;
    give_owner(server, asker, parent, child.path())
}

/// Makes a directory, or a snapshot in the directory of those.
fn make_child<F: FileSystem>(
    server: &mut Server<F>,
    asker: &Asker<'_>,
    parent: u64,
    child: &Child,
    mode: u32,
    umask: u32,
) -> Result<(), Errno>
    ensures { Does F.did server.old server.new (messages.makes_child (login_by asker.now) (maker_by asker.now) parent child.now mode umask) result }
{
    if is_snapshots(server, parent) {
        make_snapshot(server, asker, child)
    } else {
        make_owned(server, asker, parent, child, mode, umask)
    }
}

/// MKDIR: makes a directory; in the directory of snapshots it makes a snapshot. Of the mode and the umask the permission bits count.
///
/// Proved: MKDIR is one call as who asks, with the umask of its message, by a path whose directory was looked at; in the directory of
/// snapshots that which makes one. What was made for somebody by user 0 is given to them, and gets an id that was never given.
pub fn mkdir<F: FileSystem>(
    server: &mut Server<F>,
    asker: &Asker<'_>,
    parent: u64,
    name: &[u8],
    mode: u32,
    umask: u32,
) -> Result<Entry, Errno>
    ensures { Does F.did server.old server.new (messages.mkdir (login_by asker.now) (maker_by asker.now) parent name.now mode umask) result }
{
    let child = child_of(server, parent, name)?;
    make_child(server, asker, parent, &child, mode, umask)?;
    made_at(server, parent, &child)
}
