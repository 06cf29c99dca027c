//! Names that are removed.
ghost use Rattle.std.specs.Prelude.{◌≡◌, Ok, IfOk, IfErr, if◌then◌else◌};
ghost use Rattle.sn_fuse_replies.specs.declared.errno.Errno.TheVariants.{ENOMEM};
ghost use Rattle.sn_model.specs.declared.call.Call.TheVariants.{Rmdir, SnapDelete};
ghost use Rattle.sn_plan.specs.Asking.{login_by};
ghost use Rattle.sn_plan.specs.Follows.{Does};
ghost use Rattle.sn_serve_names.specs.Messages as messages;

use crate::asking::does;
use crate::names::{Child, child_of, is_snapshots};
use sn_fuse_replies::Errno;
use sn_model::Call;
use sn_plan::{Asker, FileSystem, Server, word};
use std::alloc::Global;

/// What is kept of a name that is gone.
fn forget<F: FileSystem>(server: &mut Server<F>, parent: u64, child: &Child)
    ensures { Does F.did server.old server.new (messages.forgets parent child.now.name) (Ok tt) }
{
    server.nodes.unlink(parent, child.name());
}

/// Removes a file's name. No snapshot is unlinked (`EISDIR`).
fn unlink_child<F: FileSystem>(
    server: &mut Server<F>,
    asker: &Asker<'_>,
    parent: u64,
    child: &Child,
) -> Result<(), Errno>
    ensures { Does F.did server.old server.new (messages.unlinks (login_by asker.now) parent child.now) result }
{
    if is_snapshots(server, parent) {
        return Err(Errno::EISDIR);
    }
    let path = word(server.alloc, child.path())?;
    does(server, asker, &Call::Unlink { path })
}

/// UNLINK: removes a name of a file.
///
/// Proved: UNLINK is one call as who asks, by a path whose directory was looked at, and none in the directory of snapshots. The name is
/// forgotten where it is done.
pub fn unlink<F: FileSystem>(
    server: &mut Server<F>,
    asker: &Asker<'_>,
    parent: u64,
    name: &[u8],
) -> Result<(), Errno>
    ensures { Does F.did server.old server.new (messages.unlink (login_by asker.now) parent name.now) result }
{
    let child = child_of(server, parent, name)?;
    unlink_child(server, asker, parent, &child)?;
    forget(server, parent, &child);
    Ok(())
}

/// The call that removes a directory, or a snapshot by its name.
fn rmdir_call(alloc: Global, is_snapshot: bool, child: &Child) -> Result<Call, Errno>
    ensures call { IfOk result (λ call. call ≡ (if is_snapshot then SnapDelete child.now.name else Rmdir child.now.path)) }
    ensures err { IfErr result (λ e. e ≡ ENOMEM) }
{
    if is_snapshot {
        let name = word(alloc, child.name())?;
        return Ok(Call::SnapDelete { name });
    }
    let path = word(alloc, child.path())?;
    Ok(Call::Rmdir { path })
}

/// Removes a directory, or deletes a snapshot.
fn rmdir_child<F: FileSystem>(
    server: &mut Server<F>,
    asker: &Asker<'_>,
    parent: u64,
    child: &Child,
) -> Result<(), Errno>
    ensures { Does F.did server.old server.new (messages.removes (login_by asker.now) parent child.now) result }
{
    let call = rmdir_call(server.alloc, is_snapshots(server, parent), child)?;
    does(server, asker, &call)
}

/// RMDIR: removes an empty directory; in the directory of snapshots it deletes a snapshot.
///
/// Proved: RMDIR is one call as who asks, by a path whose directory was looked at; in the directory of snapshots that which deletes one.
pub fn rmdir<F: FileSystem>(
    server: &mut Server<F>,
    asker: &Asker<'_>,
    parent: u64,
    name: &[u8],
) -> Result<(), Errno>
    ensures { Does F.did server.old server.new (messages.rmdir (login_by asker.now) parent name.now) result }
{
    let child = child_of(server, parent, name)?;
    rmdir_child(server, asker, parent, &child)?;
    forget(server, parent, &child);
    Ok(())
}
