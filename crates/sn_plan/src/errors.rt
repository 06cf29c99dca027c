//! The errors of calls and looks, as answers of messages have them.
ghost use Rattle.std.specs.Prelude.{◌≡◌};
ghost use Rattle.sn_plan.specs.Errors as errors;

use sn_fuse_replies::Errno;
use sn_model::Errno as Refused;

/// Why something couldn't be looked at.
#[derive(Clone, Copy, Debug, PartialEq, Eq)]
pub enum LookFault {
    /// Memory was refused.
    Memory,
    /// A block couldn't be read, or the mount has stopped.
    Read,
}

impl LookFault {
    /// The error of the message: `ENOMEM` or `EIO`.
    pub fn errno(self) -> Errno
        ensures { result ≡ errors.fault_errno self }
    {
        match self {
            LookFault::Memory => Errno::ENOMEM,
            LookFault::Read => Errno::EIO,
        }
    }
}

/// The error with which a refused call is answered: its own. The two that Linux doesn't have are `ENOSPC` where a limit of the file
/// system is reached, and `EIO` where the mount has stopped.
///
/// Proved: A refused call is answered with its own error, a limit of the file system with `ENOSPC`, and a mount that has stopped with
/// `EIO`.
pub fn errno_of(refused: Refused) -> Errno
    ensures { result ≡ errors.errno_of refused }
{
    match refused {
        Refused::Eacces => Errno::EACCES,
        Refused::Eperm => Errno::EPERM,
        Refused::Enoent => Errno::ENOENT,
        Refused::Enotdir => Errno::ENOTDIR,
        Refused::Eisdir => Errno::EISDIR,
        Refused::Eexist => Errno::EEXIST,
        Refused::Enotempty => Errno::ENOTEMPTY,
        Refused::Einval => Errno::EINVAL,
        Refused::Enametoolong => Errno::ENAMETOOLONG,
        Refused::Erofs => Errno::EROFS,
        Refused::Exdev => Errno::EXDEV,
        Refused::Ebusy => Errno::EBUSY,
        Refused::Emlink => Errno::EMLINK,
        Refused::Emfile => Errno::EMFILE,
        Refused::Ebadf => Errno::EBADF,
        Refused::Efbig => Errno::EFBIG,
        Refused::Elimit | Refused::Enospc => Errno::ENOSPC,
        Refused::Enomem => Errno::ENOMEM,
        Refused::Eio | Refused::Estopped => Errno::EIO,
    }
}
