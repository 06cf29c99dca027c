//! What is made for others than user 0.
ghost use Rattle.std.specs.Prelude.{◌≡◌};
ghost use Rattle.sn_plan.specs.Asking.{maker_by};
ghost use Rattle.sn_plan.specs.Follows.{Does};
ghost use Rattle.sn_serve_names.specs.Messages as messages;

use crate::meeting::seen_at;
use sn_callers::{Caller, LOOKER};
use sn_fuse_replies::Errno;
use sn_model::Call;
use sn_plan::{Asker, FileSystem, Server, done, word};
use sn_walk::Attributes;

/// The group that is set: none where the directory gave its own, by S_ISGID.
fn group_in(directory: &Attributes, maker: Caller) -> Option<u32>
    ensures { result ≡ messages.group_in directory.now maker }
{
    if directory.set_gid {
        None
    } else {
        Some(maker.group)
    }
}

/// Sets the owner of what is at a path, as user 0, and the group where there is one to set.
fn chown<F: FileSystem>(
    server: &mut Server<F>,
    path: &[u8],
    user: u32,
    group: Option<u32>,
) -> Result<(), Errno>
    ensures { Does F.did server.old server.new (messages.chowns path.now user group) result }
{
    let path = word(server.alloc, path)?;
    let uid = Some(user);
    let reply = server.call(
        LOOKER,
        &Call::Chown {
            path,
            uid,
            gid: group,
        },
    );
    done(&reply)
}

/// Gives what user 0 made in a directory to its maker.
fn give_to<F: FileSystem>(
    server: &mut Server<F>,
    maker: Caller,
    parent: u64,
    path: &[u8],
) -> Result<(), Errno>
    ensures { Does F.did server.old server.new (messages.gives_to maker parent path.now) result }
{
    let directory = seen_at(server, parent)?;
    chown(server, path, maker.user, group_in(&directory, maker))
}

/// Gives what was made in a directory to its maker, if it isn't theirs already. Where that is refused, it stays user 0's.
///
/// Proved: What user 0 made for somebody, where the system checks, is given to its maker by one chown; its group stays where its directory has
/// S_ISGID.
pub fn give_owner<F: FileSystem>(
    server: &mut Server<F>,
    asker: &Asker<'_>,
    parent: u64,
    path: &[u8],
) -> Result<(), Errno>
    ensures { Does F.did server.old server.new (messages.gives_owner (maker_by asker.now) parent path.now) result }
{
    match asker.maker() {
        Some(maker) => give_to(server, maker, parent, path),
        None => Ok(()),
    }
}
