//! What a call's reply gives.
ghost use Rattle.std.specs.Prelude.{◌≡◌};
ghost use Rattle.sn_plan.specs.Replies as replies;

use crate::errors::errno_of;
use sn_fuse_replies::Errno;
use sn_model::{FileStatus, Reply};

/// That a call is done which has nothing to tell. The error of one that was refused; `EIO` for a reply that no such call has.
pub fn done(reply: &Reply) -> Result<(), Errno>
    ensures { result ≡ replies.done reply.now }
{
    match reply {
        Reply::Done => Ok(()),
        Reply::Refused(refusal) => Err(errno_of(refusal.errno)),
        _ => Err(Errno::EIO),
    }
}

/// What stat told. The error of one that was refused; `EIO` for a reply that stat doesn't have.
pub fn status(reply: &Reply) -> Result<FileStatus, Errno>
    ensures { result ≡ replies.status reply.now }
{
    match reply {
        Reply::Status(status) => Ok(*status),
        Reply::Refused(refusal) => Err(errno_of(refusal.errno)),
        _ => Err(Errno::EIO),
    }
}
