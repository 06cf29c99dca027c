//! What the replies to calls on files give.
ghost use Rattle.std.specs.Prelude.{◌≡◌};
ghost use Rattle.sn_serve_files.specs.Replies as replies;

use sn_fuse_replies::Errno;
use sn_model::{Errno as Refused, FileData, Reply};
use sn_plan::errno_of;

fn small(number: u64) -> Result<u32, Errno>
    ensures { result ≡ replies.small number }
{
    match u32::try_from(number) {
        Ok(small) => Ok(small),
        Err(_) => Err(Errno::EIO),
    }
}

/// The descriptor that open told, or the count that write did. The error of one that was refused; `EIO` for a reply that neither has.
pub(crate) fn number(reply: &Reply) -> Result<u32, Errno>
    ensures { result ≡ replies.number reply.now }
{
    match reply {
        Reply::Number(number) => small(*number),
        Reply::Refused(refusal) => Err(errno_of(refusal.errno)),
        _ => Err(Errno::EIO),
    }
}

/// That open or lseek is done. The error of one that was refused; `EIO` for a reply that neither has.
pub(crate) fn numbered(reply: &Reply) -> Result<(), Errno>
    ensures { result ≡ replies.numbered reply.now }
{
    match reply {
        Reply::Number(_) => Ok(()),
        Reply::Refused(refusal) => Err(errno_of(refusal.errno)),
        _ => Err(Errno::EIO),
    }
}

fn seek_errno(refused: Refused) -> Errno
    ensures { result ≡ replies.seek_errno refused }
{
    match refused {
        Refused::Einval => Errno::EFBIG,
        other => errno_of(other),
    }
}

/// That lseek is done before a write: `EFBIG` where the offset is past the largest file.
pub(crate) fn sought(reply: &Reply) -> Result<(), Errno>
    ensures { result ≡ replies.sought reply.now }
{
    match reply {
        Reply::Number(_) => Ok(()),
        Reply::Refused(refusal) => Err(seek_errno(refusal.errno)),
        _ => Err(Errno::EIO),
    }
}

/// The bytes that read gave. The error of one that was refused; `EIO` for a reply that read doesn't have.
pub(crate) fn content(reply: Reply) -> Result<FileData, Errno>
    ensures { result ≡ replies.content reply }
{
    match reply {
        Reply::Content(bytes) => Ok(bytes),
        Reply::Refused(refusal) => Err(errno_of(refusal.errno)),
        _ => Err(Errno::EIO),
    }
}
