use sn_acl::{Acl, Mode};

/// Which of the ACLs of an object.
#[derive(Clone, Copy, PartialEq, Eq, Hash)]
pub enum AclKind {
    /// The ACL that decides what is granted.
    Access,
    /// The ACL that objects made in a directory take over.
    Default,
}

/// An ACL that is to be set, once its text has been read.
#[derive(PartialEq, Eq, Drop)]
pub enum NewAcl {
    Access(Acl),
    /// None takes a directory's default ACL away.
    Default(Option<Acl>),
}

/// The bits of a mode: the nine permission bits, and S_ISGID and S_ISVTX above them.
#[derive(Clone, Copy, PartialEq, Eq, Hash)]
pub struct ModeBits {
    pub mode: Mode,
    /// S_ISGID.
    pub set_gid: bool,
    /// S_ISVTX.
    pub sticky: bool,
}

/// What open() is asked for, by the names that POSIX.1-2017 has in <fcntl.h>.
#[derive(Clone, Copy, PartialEq, Eq, Hash)]
pub struct OpenFlags {
    /// O_RDONLY, or half of O_RDWR.
    pub read: bool,
    /// O_WRONLY, or half of O_RDWR.
    pub write: bool,
    /// O_APPEND: each write goes to the file's end.
    pub append: bool,
    /// O_CREAT: a file that isn't there is made.
    pub create: bool,
    /// O_EXCL: a file that is there is refused.
    pub exclusive: bool,
    /// O_TRUNC: a file that is there loses its bytes.
    pub truncate: bool,
}
