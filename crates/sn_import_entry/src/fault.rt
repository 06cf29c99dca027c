use sn_untar::NameFault;
use std::alloc::AllocError;

/// Why an entry isn't made.
#[derive(Clone, Copy, Debug, PartialEq, Eq)]
pub enum EntryFault {
    SymbolicLink,
    Device,
    Pipe,
    Sparse,
    /// It is of another kind.
    Kind,
    /// The file has over 68,719,476,736 bytes.
    TooLarge,
    /// The number of its user or its group has more than 32 bits.
    Owner,
    /// The text of an ACL is misspelt, or spells no valid one.
    Acl,
    /// An ACL names a user or a group that isn't known.
    Account,
    /// Its name is no path of an image.
    Name(NameFault),
    /// Its name is that of the directory that the archive goes into, which is no file.
    NameEmpty,
    /// The name that it is a link to is no path of an image.
    Link(NameFault),
    /// It is a link to the directory that the archive goes into.
    LinkEmpty,
}

/// Why there is no object for an entry.
#[derive(Clone, Copy, Debug, PartialEq, Eq)]
pub enum ObjectFault {
    Entry(EntryFault),
    Memory,
}

impl From<EntryFault> for ObjectFault {
    ghost use Rattle.std.specs.Prelude.{◌≡◌};
    ghost use Rattle.sn_import_entry.specs.declared.fault.ObjectFault.TheVariants.{Entry};

    ghost from_gives = { λ entry fault. fault ≡ Entry entry };

    fn from(fault: EntryFault) -> ObjectFault {
        ObjectFault::Entry(fault)
    }
}

impl From<AllocError> for ObjectFault {
    ghost use Rattle.std.specs.Prelude.{◌≡◌};
    ghost use Rattle.sn_import_entry.specs.declared.fault.ObjectFault.TheVariants.{Memory};

    ghost from_gives = { λ _ fault. fault ≡ Memory };

    fn from(_error: AllocError) -> ObjectFault {
        ObjectFault::Memory
    }
}
