//! What a message asks for.

use crate::forgets::Forgets;
use crate::name::{Data, Name};
use sn_fuse_flags::{AttributeFlags, InitFlags, OpenFlags, RenameFlags, XattrFlags};

/// A time since 1970 began, as it came: nothing says that there are fewer than 10^9 nanoseconds.
#[derive(Clone, Copy, PartialEq, Eq, Debug)]
pub struct Time {
    pub seconds: u64,
    pub nanoseconds: u32,
}

/// What a SETATTR gives a node. `flags` says which of the others count.
#[derive(Clone, Copy, PartialEq, Eq, Debug)]
pub struct NewAttributes {
    pub flags: AttributeFlags,
    /// The open file through which the size is set.
    pub handle: u64,
    pub size: u64,
    pub accessed: Time,
    pub modified: Time,
    /// Kind and permission bits, as in `st_mode`.
    pub mode: u32,
    pub user: u32,
    pub group: u32,
}

/// Which bytes of an open file, or which entries of an open directory, are read.
#[derive(Clone, Copy, PartialEq, Eq, Debug)]
pub struct Span {
    pub handle: u64,
    /// Of a directory: 0, or the offset in an entry of its listing.
    pub offset: u64,
    /// How many bytes the answer may have at most.
    pub size: u32,
}

/// An operation on the node of the message's head. A node, a handle, an offset or a size is a number here: whether it
/// denotes something is for whoever serves it.
#[derive(Drop)]
pub enum Op<'a> {
    /// The node that a directory has under a name.
    Lookup {
        name: Name<'a>,
    },
    /// So many look-ups of the node are forgotten. Has no answer.
    Forget {
        lookups: u64,
    },
    /// `handle` counts where the lowest bit of `flags` is set.
    GetAttr {
        flags: u32,
        handle: u64,
    },
    SetAttr {
        attributes: NewAttributes,
    },
    /// A symbolic link to `target`.
    Symlink {
        name: Name<'a>,
        target: Name<'a>,
    },
    /// A file, or what the kind in `mode` says.
    Mknod {
        mode: u32,
        device: u32,
        umask: u32,
        name: Name<'a>,
    },
    Mkdir {
        mode: u32,
        umask: u32,
        name: Name<'a>,
    },
    Unlink {
        name: Name<'a>,
    },
    Rmdir {
        name: Name<'a>,
    },
    /// From the head's node to `directory`.
    Rename {
        directory: u64,
        old_name: Name<'a>,
        new_name: Name<'a>,
    },
    /// One more name, in the head's node, of `node`.
    Link {
        node: u64,
        name: Name<'a>,
    },
    Open {
        flags: OpenFlags,
    },
    Read {
        span: Span,
    },
    Write {
        handle: u64,
        offset: u64,
        flags: u32,
        bytes: Data<'a>,
    },
    Statfs,
    /// The last use of an open file has ended.
    Release {
        handle: u64,
    },
    /// Of the data alone where the lowest bit of `flags` is set.
    Fsync {
        handle: u64,
        flags: u32,
    },
    SetXattr {
        flags: XattrFlags,
        name: Name<'a>,
        value: Data<'a>,
    },
    /// At most `size` bytes; of 0, the size of the value is asked.
    GetXattr {
        size: u32,
        name: Name<'a>,
    },
    ListXattr {
        size: u32,
    },
    RemoveXattr {
        name: Name<'a>,
    },
    /// A descriptor of an open file was closed.
    Flush {
        handle: u64,
    },
    /// The first message: the version and the offers of the system.
    Init {
        major: u32,
        minor: u32,
        readahead: u32,
        flags: InitFlags,
    },
    OpenDir {
        flags: OpenFlags,
    },
    ReadDir {
        span: Span,
    },
    ReleaseDir {
        handle: u64,
    },
    FsyncDir {
        handle: u64,
        flags: u32,
    },
    /// Whether the caller may: 4 read, 2 write, 1 execute or search.
    Access {
        mask: u32,
    },
    /// Makes a file, and opens it.
    Create {
        flags: OpenFlags,
        mode: u32,
        umask: u32,
        name: Name<'a>,
    },
    /// The caller of another message, that with this `unique`, waits no longer. Has no answer.
    Interrupt {
        unique: u64,
    },
    /// Has no answer.
    BatchForget {
        forgets: Forgets<'a>,
    },
    Rename2 {
        directory: u64,
        flags: RenameFlags,
        old_name: Name<'a>,
        new_name: Name<'a>,
    },
}
