ghost use Rattle.std.specs.Prelude.{◌≡◌};

use sn_acl::Acl;
use sn_limits::Kind;
use std::marker::Model;

/// Bytes that a change brings, lent by the call or the record that it comes from.
#[derive(Drop)]
pub struct Bytes<'a> {
    bytes: &'a [u8],
}

impl<'a> Model for Bytes<'a> {
    ghost use Rattle.std.specs.Prelude.{ℕ, List};

    ghost Value = { List ℕ };

    ghost view = { λ b. b.bytes.now };
}

impl<'a> Bytes<'a> {
    /// Lends these bytes to a change.
    pub fn new(bytes: &'a [u8]) -> Self
        ensures { result ≡ bytes.now }
    {
        Bytes { bytes }
    }

    /// The bytes that were lent.
    pub fn as_slice(&self) -> &'a [u8]
        ensures { result.now ≡ self.now }
    {
        self.bytes
    }
}

/// What a make and a setting of attributes give a node: who owns it, its S bits and its ACLs.
#[derive(PartialEq, Eq, Drop)]
pub struct Ownership {
    pub owner: u32,
    pub group: u32,
    /// S_ISGID.
    pub set_gid: bool,
    /// S_ISVTX.
    pub sticky: bool,
    pub acl: Acl,
    /// What objects made in a directory take over. A file has none.
    pub default_acl: Option<Acl>,
}

impl Ownership {
    /// A copy, which takes no memory.
    pub fn copy(&self) -> Ownership
        ensures { result ≡ self.now }
    {
        Ownership {
            owner: self.owner,
            group: self.group,
            set_gid: self.set_gid,
            sticky: self.sticky,
            acl: self.acl.copy(),
            default_acl: match &self.default_acl {
                Some(acl) => Some(acl.copy()),
                None => None,
            },
        }
    }
}

/// A change of the name tree, decided once: what is logged, applied, and replayed after a crash. It
/// names numbers, since the rights of whoever asked were looked at when it was decided.
#[derive(Drop)]
pub enum Change<'a> {
    /// A new file without bytes, or a new directory, under a name.
    Make {
        directory: u16,
        name: Bytes<'a>,
        number: u16,
        kind: Kind,
        ownership: Ownership,
    },
    /// One more name of a file.
    AddLink {
        directory: u16,
        name: Bytes<'a>,
        number: u16,
    },
    /// A name goes, and an empty directory with it. A file stays, with or without other names.
    Remove {
        directory: u16,
        name: Bytes<'a>,
    },
    /// A name is moved. What had the new name loses it, as by a remove. Where both are names of one
    /// object, nothing changes.
    Rename {
        old_directory: u16,
        old_name: Bytes<'a>,
        new_directory: u16,
        new_name: Bytes<'a>,
    },
    /// Bytes from an offset on, at least one. What lies between the file's end and the offset is
    /// zeros.
    Write {
        number: u16,
        offset: u64,
        bytes: Bytes<'a>,
    },
    /// A file is cut off, or zeros are put after its end.
    SetSize {
        number: u16,
        size: u64,
    },
    /// Owner, group, S bits and both ACLs at once.
    SetAttributes {
        number: u16,
        ownership: Ownership,
    },
}
