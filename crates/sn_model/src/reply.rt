ghost use Rattle.std.specs.Prelude.{◌≡◌};

use crate::{FileData, MountFault, Names, StoredAcl};
use sn_acl::{Mode, Tag};
use sn_limits::Kind;
use std::marker::Model;

/// Why a call was refused, by the names that POSIX.1-2017 has in <errno.h>, and two of our own.
#[derive(Clone, Copy, PartialEq, Eq, Hash)]
pub enum Errno {
    Eacces,
    Eperm,
    Enoent,
    Enotdir,
    Eisdir,
    Eexist,
    Enotempty,
    Einval,
    Enametoolong,
    Erofs,
    Exdev,
    Ebusy,
    Emlink,
    Emfile,
    Ebadf,
    Efbig,
    /// A limit of the file system: its numbers, the names of a directory or the snapshots.
    Elimit,
    Enospc,
    Enomem,
    Eio,
    /// The mount has stopped.
    Estopped,
}

/// What decided that a right is lacking.
#[derive(Clone, Copy, PartialEq, Eq, Hash)]
pub enum Rule {
    /// An entry of the ACL.
    Entry(Tag),
    /// The directory is sticky, and the caller owns neither it nor the object.
    Sticky,
    NotOwner,
    NotRoot,
    NotMember,
}

/// An access that was asked. Of a directory, execute is to search it.
#[derive(Clone, Copy, PartialEq, Eq, Hash)]
pub struct Access {
    pub read: bool,
    pub write: bool,
    pub execute: bool,
}

impl Access {
    pub const SEARCH: Access = Access {
        read: false,
        write: false,
        execute: true,
    };

    pub const WRITE: Access = Access {
        read: false,
        write: true,
        execute: false,
    };
}

/// Which path of a call, seen as a number: 1 or 2, or 0 where the call has no path.
#[derive(Clone, Copy, PartialEq, Eq, Hash)]
pub struct PathNumber {
    number: u8,
}

impl Model for PathNumber {
    ghost use Rattle.std.specs.Prelude.{ℕ, ◌≤◌};

    ghost Value = { ℕ };

    ghost view = { λ path. path.number };

    ghost invariant = { λ path. path.number ≤ 2 };

    ghost inverse = { λ n. record { number = n } };
}

impl PathNumber {
    pub const NONE: PathNumber = PathNumber { number: 0 };

    pub const FIRST: PathNumber = PathNumber { number: 1 };

    pub const SECOND: PathNumber = PathNumber { number: 2 };

    /// 1 or 2, as a denial says it; 0 where the call has no path.
    pub fn get(self) -> u8
        ensures { result ≡ self }
    {
        self.number
    }
}

/// Where and why a right is lacking.
#[derive(Clone, Copy, PartialEq, Eq, Hash)]
pub struct Denial {
    pub path: PathNumber,
    /// 0 is the root, and i what the first i names of the path denote.
    pub place: u16,
    /// The access that was asked, none where the rule is no entry.
    pub want: Access,
    pub rule: Rule,
}

/// Why a call was refused. A lack of rights, EACCES or EPERM, comes with its denial.
#[derive(Clone, Copy, PartialEq, Eq, Hash)]
pub struct Refusal {
    pub errno: Errno,
    pub denial: Option<Denial>,
}

impl Refusal {
    ghost use Rattle.sn_model.specs.Tests.{plain};

    /// A refusal that isn't for lack of a right.
    pub fn plain(errno: Errno) -> Refusal
        ensures { result ≡ plain errno }
    {
        Refusal {
            errno,
            denial: None,
        }
    }
}

/// What stat answers.
#[derive(Clone, Copy, PartialEq, Eq, Hash)]
pub struct FileStatus {
    pub kind: Kind,
    /// S_ISGID.
    pub set_gid: bool,
    /// S_ISVTX.
    pub sticky: bool,
    pub mode: Mode,
    /// How many names a file has. A directory has 1.
    pub links: u16,
    pub owner: u32,
    pub group: u32,
    /// The bytes of a file. A directory has 0.
    pub size: u64,
    pub number: u16,
}

/// How far a step of a consistency point came.
#[derive(Clone, Copy, PartialEq, Eq, Hash)]
pub enum Progress {
    /// The point continues.
    More,
    /// What the point froze is durable.
    Done,
}

/// The answer to an event.
#[derive(Drop)]
pub enum Reply {
    /// It is done, and there is nothing to report.
    Done,
    /// umask(): the mask that was.
    Mode(Mode),
    /// The descriptor of open(), the bytes that write() wrote, the offset of lseek().
    Number(u64),
    /// read(): none at the end of the file or past it.
    Content(FileData),
    Status(FileStatus),
    /// Of a directory or of the snapshots, in the order of their bytes.
    Names(Names),
    /// The ACL that was asked for. A directory may have no default ACL.
    Acl(Option<StoredAcl>),
    Progress(Progress),
    Refused(Refusal),
    /// A restart unmounted, or found the mount stopped, and then couldn't mount.
    Unmounted(MountFault),
}
