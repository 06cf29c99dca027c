use crate::{Access, AclKind, FileData, Groups, OpenFlags, Word};

/// What a session asks for.
#[derive(Drop)]
pub enum Call {
    /// Opens the session, with a credential and the umask 0022.
    Login {
        uid: u32,
        gid: u32,
        groups: Groups,
    },
    /// Closes the session, and all that it has open.
    Logout,
    /// POSIX.1-2017 umask(): sets the bits that new objects lose. A mask over 0777 is refused.
    Umask {
        mask: u16,
    },
    /// POSIX.1-2017 mkdir(): makes a directory. A mode over 0777 is refused.
    Mkdir {
        path: Word,
        mode: u16,
    },
    /// POSIX.1-2017 chmod(): sets the permission bits, S_ISGID and S_ISVTX. A mode over 03777 is refused.
    Chmod {
        path: Word,
        mode: u16,
    },
    /// POSIX.1-2017 chown(): sets owner and group. None leaves the one that is there.
    Chown {
        path: Word,
        uid: Option<u32>,
        gid: Option<u32>,
    },
    /// POSIX.1-2017 stat().
    Stat {
        path: Word,
    },
    /// POSIX.1-2017 access(): asks for rights, by the credential of the session.
    Access {
        path: Word,
        want: Access,
    },
    /// An ACL of an object.
    GetAcl {
        path: Word,
        kind: AclKind,
    },
    /// Sets an ACL of an object to the one that a text spells. A dash takes a default ACL away.
    SetAcl {
        path: Word,
        kind: AclKind,
        acl: Word,
    },
    /// POSIX.1-2017 rmdir(): takes an empty directory away.
    Rmdir {
        path: Word,
    },
    /// POSIX.1-2017 unlink(): takes a name of a file away. The file goes with its last name, once
    /// nobody has it open.
    Unlink {
        path: Word,
    },
    /// POSIX.1-2017 link(): gives a file one more name.
    Link {
        old: Word,
        new: Word,
    },
    /// POSIX.1-2017 rename(): exchanges a name for another, and takes away what had that, in one change.
    Rename {
        old: Word,
        new: Word,
    },
    /// POSIX.1-2017 readdir(): the names of a directory, in the order of their bytes.
    Readdir {
        path: Word,
    },
    /// POSIX.1-2017 open(): opens a file, and makes it where the flags ask for that. The mode is that of a
    /// file that is made; over 0777 it is refused.
    Open {
        path: Word,
        flags: OpenFlags,
        mode: u16,
    },
    /// POSIX.1-2017 close().
    Close {
        fd: u32,
    },
    /// POSIX.1-2017 read(): so many bytes from the descriptor's offset on, 65,536 at the most.
    Read {
        fd: u32,
        count: u64,
    },
    /// POSIX.1-2017 write(): bytes to the descriptor's offset, or to the file's end, 65,536 at the most.
    Write {
        fd: u32,
        bytes: FileData,
    },
    /// POSIX.1-2017 lseek() with SEEK_SET.
    Seek {
        fd: u32,
        offset: u64,
    },
    /// POSIX.1-2017 ftruncate().
    Ftruncate {
        fd: u32,
        size: u64,
    },
    /// POSIX.1-2017 sync(), which here waits: makes a whole consistency point, so that the tree that was
    /// live is the durable one.
    Sync,
    /// Makes a snapshot of the live tree, under a name of 1 to 31 letters, digits, dots, underscores and dashes that is
    /// neither `.` nor `..`: a whole consistency point freezes the tree. The user 0 alone may do it.
    SnapCreate {
        name: Word,
    },
    /// Lets a snapshot go, with a whole consistency point. The user 0 alone may do it, and while nobody has a file of the
    /// snapshot open.
    SnapDelete {
        name: Word,
    },
    /// Makes the live tree what a snapshot has, but for its files without names, with a whole consistency point. The user 0
    /// alone may do it, and while nobody has a file of the live tree open.
    SnapRestore {
        name: Word,
    },
    /// The names of the snapshots, in the order of their bytes.
    SnapList,
}

impl Call {
    ghost use Rattle.std.specs.Prelude.{◌≡◌};
    ghost use Rattle.sn_model.specs.Steps.{asks_for_point};

    /// Whether the call asks for a whole consistency point, as `sync` does, and those that make a snapshot, let one
    /// go, or bring one back.
    pub fn asks_for_point(&self) -> bool
        ensures { result ≡ asks_for_point self.now }
    {
        matches!(
            self,
            Call::Sync
                | Call::SnapCreate { .. }
                | Call::SnapDelete { .. }
                | Call::SnapRestore { .. }
        )
    }
}

/// What happens to a file system, one after the other.
#[derive(Drop)]
pub enum Event {
    /// A call of the session with this number.
    Call { session: u32, call: Call },
    /// One step of a consistency point, which begins one where none is in progress.
    Step,
    /// An unmount and a mount; of a mount that has stopped, a mount alone.
    Restart,
}
