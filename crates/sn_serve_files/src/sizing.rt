//! The size of a file.
ghost use Rattle.std.specs.Prelude.{◌≡◌, ◌<◌, Ok};
ghost use Rattle.sn_plan.specs.Asking.{login_by};
ghost use Rattle.sn_plan.specs.Follows.{Does};
ghost use Rattle.sn_serve_files.specs.Messages as messages;
ghost use Rattle.sn_serve_files.specs.Replies as replies;

use crate::flags::to_write;
use crate::opening::open_call;
use crate::replies::number;
use sn_callers::{ASKER, OpenFile, session_of};
use sn_fuse_replies::Errno;
use sn_model::{Call, Reply};
use sn_plan::{Asker, FileSystem, Server, done, word};

/// Sets the size of what who asks opened. The reply of an open that was refused is returned.
fn truncate<F: FileSystem>(server: &mut Server<F>, size: u64, opened: Reply) -> Reply
    ensures { Does F.did server.old server.new (messages.truncates size opened (replies.number opened)) (Ok result) }
{
    match number(&opened) {
        Ok(fd) => server.call(ASKER, &Call::Ftruncate { fd, size }),
        Err(_) => opened,
    }
}

/// Opens a file in the session of who asks, sets its size, and logs out, which closes it.
fn size_and_leave<F: FileSystem>(server: &mut Server<F>, opening: &Call, size: u64) -> Reply
    ensures { Does F.did server.old server.new (messages.as_sizer opening.now size) (Ok result) }
{
    let opened = server.call(ASKER, opening);
    let reply = truncate(server, size, opened);
    server.call(ASKER, &Call::Logout);
    reply
}

/// Logs in, opens a file, sets its size and logs out.
fn size_in<F: FileSystem>(server: &mut Server<F>, login: &Call, opening: &Call, size: u64) -> Reply
    ensures { Does F.did server.old server.new (messages.sized_in login.now opening.now size) (Ok result) }
{
    let login_reply = server.call(ASKER, login);
    if let Reply::Refused(_) = login_reply {
        return login_reply;
    }
    size_and_leave(server, opening, size)
}

/// Sets the size of the file that a call opens, as who asks.
fn ask_size<F: FileSystem>(
    server: &mut Server<F>,
    asker: &Asker<'_>,
    opening: &Call,
    size: u64,
) -> Result<Reply, Errno>
    ensures { Does F.did server.old server.new (messages.asks_size (login_by asker.now) opening.now size) result }
{
    let login = server.login(asker)?;
    Ok(size_in(server, &login, opening, size))
}

/// Sets the size of the file at a path, as who asks.
///
/// Proved: Without a handle, a size is set through a file that who asks opens to write, and that their logout closes.
pub fn size_at<F: FileSystem>(
    server: &mut Server<F>,
    asker: &Asker<'_>,
    path: &[u8],
    size: u64,
) -> Result<(), Errno>
    ensures { Does F.did server.old server.new (messages.size_at (login_by asker.now) path.now size) result }
{
    let path = word(server.alloc, path)?;
    let opening = open_call(path, to_write());
    let reply = ask_size(server, asker, &opening, size)?;
    done(&reply)
}

/// Sets the size of the file that a handle stands for. No right is asked again.
///
/// Proved: With a handle, a size is set by one ftruncate through the descriptor that the handle stands for.
pub fn size_of_open<F: FileSystem>(
    server: &mut Server<F>,
    handle: u64,
    file: OpenFile,
    size: u64,
) -> Result<(), Errno>
    requires { handle < 4032 }
    ensures { Does F.did server.old server.new (messages.size_of_open handle file size) result }
{
    let fd = file.descriptor;
    let reply = server.call(session_of(handle), &Call::Ftruncate { fd, size });
    done(&reply)
}
