//! The errors that an answer can report.
ghost use Rattle.std.specs.Prelude.{◌≡◌, ◌<◌};
ghost use Rattle.sn_fuse_replies.specs.Errno.{errno_number};

/// An error by its name in errno(3), with its number on Linux.
#[derive(Clone, Copy, PartialEq, Eq, Debug)]
pub enum Errno {
    EPERM = 1,
    ENOENT = 2,
    EIO = 5,
    EBADF = 9,
    EAGAIN = 11,
    ENOMEM = 12,
    EACCES = 13,
    EBUSY = 16,
    EEXIST = 17,
    EXDEV = 18,
    ENOTDIR = 20,
    EISDIR = 21,
    EINVAL = 22,
    ENFILE = 23,
    EMFILE = 24,
    EFBIG = 27,
    ENOSPC = 28,
    EROFS = 30,
    EMLINK = 31,
    ERANGE = 34,
    ENAMETOOLONG = 36,
    ENOSYS = 38,
    ENOTEMPTY = 39,
    ENODATA = 61,
    EOPNOTSUPP = 95,
    ESTALE = 116,
}

impl Errno {
    /// Its number.
    pub fn number(self) -> u32
        ensures value { result ≡ errno_number self }
        ensures some { 0 < result }
        ensures few { result < 512 }
    {
        self as u32
    }
}
