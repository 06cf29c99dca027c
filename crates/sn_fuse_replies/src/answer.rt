//! What a message is answered.

use crate::errno::Errno;
use crate::listing::Listed;
use sn_fuse::{Data, Time};
use sn_fuse_flags::InitFlags;

/// What a node is like, as stat(2) reports it.
#[derive(Clone, Copy, PartialEq, Eq, Debug)]
pub struct Attributes {
    /// The number that `st_ino` reports.
    pub number: u64,
    pub size: u64,
    /// How many pieces of 512 bytes it takes.
    pub blocks: u64,
    pub accessed: Time,
    pub modified: Time,
    pub changed: Time,
    /// Kind and permission bits, as in `st_mode`.
    pub mode: u32,
    pub links: u32,
    pub user: u32,
    pub group: u32,
    pub device: u32,
    pub block_size: u32,
}

/// A name's node, with how long the system may rest on it without asking again.
#[derive(Clone, Copy, PartialEq, Eq, Debug)]
pub struct Entry {
    pub node: u64,
    /// Of two nodes with one number the later has another generation.
    pub generation: u64,
    /// For how long the name denotes the node.
    pub name_lasts: Time,
    /// For how long the attributes hold.
    pub attributes_last: Time,
    pub attributes: Attributes,
}

/// An open file or directory.
#[derive(Clone, Copy, PartialEq, Eq, Debug)]
pub struct Opened {
    /// What later messages about it repeat.
    pub handle: u64,
    /// The bits `FOPEN_` of the protocol.
    pub flags: u32,
}

/// How much room a file system has, as statvfs(3) reports it.
#[derive(Clone, Copy, PartialEq, Eq, Debug)]
pub struct Statistics {
    pub blocks: u64,
    pub free: u64,
    /// Free for callers without privileges.
    pub available: u64,
    pub files: u64,
    pub free_files: u64,
    pub block_size: u32,
    pub name_length: u32,
    pub fragment_size: u32,
}

/// What a server takes of what the system offered, and its limits.
#[derive(Clone, Copy, PartialEq, Eq, Debug)]
pub struct Initialized {
    pub major: u32,
    pub minor: u32,
    pub readahead: u32,
    pub flags: InitFlags,
    pub background: u16,
    pub congestion: u16,
    /// The most bytes that a WRITE brings.
    pub write: u32,
    /// Times are multiples of so many nanoseconds.
    pub time_granularity: u32,
    /// The most pages that a message brings.
    pub pages: u16,
}

/// An answer. FORGET, BATCH_FORGET and INTERRUPT have none.
#[derive(Drop)]
pub enum Answer<'a> {
    Error { errno: Errno },
    /// It was done, and there is nothing to report.
    Nothing,
    /// Of LOOKUP, MKNOD, MKDIR, SYMLINK and LINK.
    Entry { entry: Entry },
    /// Of GETATTR and SETATTR, with how long they hold.
    Attributes { last: Time, attributes: Attributes },
    /// Of OPEN and OPENDIR.
    Opened { opened: Opened },
    /// Of CREATE.
    Created { entry: Entry, opened: Opened },
    /// Of READ, GETXATTR and LISTXATTR.
    Data { bytes: Data<'a> },
    /// How many bytes a WRITE wrote.
    Written { count: u32 },
    Statistics { statistics: Statistics },
    /// Of GETXATTR and LISTXATTR that ask for a size.
    XattrSize { size: u32 },
    /// Of READDIR.
    Listing { listed: Listed<'a> },
    Initialized { initialized: Initialized },
}
