//! Calls of who asks, and what they tell.
ghost use Rattle.sn_plan.specs.Asking.{login_by};
ghost use Rattle.sn_plan.specs.Follows.{Does};
ghost use Rattle.sn_serve_names.specs.Messages as messages;

use sn_fuse_replies::Errno;
use sn_model::{Call, FileStatus};
use sn_plan::{Asker, FileSystem, Server, done, status, word};

/// Makes a call as who asks. The error of one that is refused.
pub fn does<F: FileSystem>(
    server: &mut Server<F>,
    asker: &Asker<'_>,
    call: &Call,
) -> Result<(), Errno>
    ensures { Does F.did server.old server.new (messages.does (login_by asker.now) call.now) result }
{
    let reply = server.ask(asker, call)?;
    done(&reply)
}

/// What who asks is told of what is at a path.
pub fn status_as<F: FileSystem>(
    server: &mut Server<F>,
    asker: &Asker<'_>,
    path: &[u8],
) -> Result<FileStatus, Errno>
    ensures { Does F.did server.old server.new (messages.status_as (login_by asker.now) path.now) result }
{
    let path = word(server.alloc, path)?;
    let reply = server.ask(asker, &Call::Stat { path })?;
    status(&reply)
}
