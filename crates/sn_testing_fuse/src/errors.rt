//! Errors by their names.

use anyhow::{Result, bail};
use sn_fuse_replies::Errno;

/// The error of errno(3) that has a name.
pub(crate) fn errno_of(word: &str) -> Result<Errno> {
    Ok(match word {
        "EPERM" => Errno::EPERM,
        "ENOENT" => Errno::ENOENT,
        "EIO" => Errno::EIO,
        "EBADF" => Errno::EBADF,
        "EAGAIN" => Errno::EAGAIN,
        "ENOMEM" => Errno::ENOMEM,
        "EACCES" => Errno::EACCES,
        "EBUSY" => Errno::EBUSY,
        "EEXIST" => Errno::EEXIST,
        "EXDEV" => Errno::EXDEV,
        "ENOTDIR" => Errno::ENOTDIR,
        "EISDIR" => Errno::EISDIR,
        "EINVAL" => Errno::EINVAL,
        "ENFILE" => Errno::ENFILE,
        "EMFILE" => Errno::EMFILE,
        "EFBIG" => Errno::EFBIG,
        "ENOSPC" => Errno::ENOSPC,
        "EROFS" => Errno::EROFS,
        "EMLINK" => Errno::EMLINK,
        "ERANGE" => Errno::ERANGE,
        "ENAMETOOLONG" => Errno::ENAMETOOLONG,
        "ENOSYS" => Errno::ENOSYS,
        "ENOTEMPTY" => Errno::ENOTEMPTY,
        "ENODATA" => Errno::ENODATA,
        "EOPNOTSUPP" => Errno::EOPNOTSUPP,
        "ESTALE" => Errno::ESTALE,
        _ => bail!("no error: {word}"),
    })
}
