//! The bits of the mount's messages that a server looks at, of FUSE's protocol 7.31 and of Linux, as sets of flags.
//!
//! Each set is the number that the message has, seen as its field `0`: bits that have no name here stay as they came, so
//! what was read and is written again is the same number. The crate `bitflags` writes the operations of sets.
//!
//! The way through: the root file has all sets, one after the other.
//!
//! ```text
//! if flags.contains(OpenFlags::TRUNCATE) {
//! ```
#![tactic(auto)]

ghost use Rattle.std.specs.Prelude.{⊤, [], ◌∷◌, codes};

use bitflags::{Flag, Flags, bitflag_items};

/// Which of the new attributes a SETATTR sets (`FATTR_`).
#[derive(Clone, Copy, PartialEq, Eq, Debug)]
pub struct AttributeFlags(pub u32);

bitflag_items! {
    impl AttributeFlags: u32 {
        const MODE = 1;
        const USER = 2;
        const GROUP = 4;
        const SIZE = 8;
        const ACCESSED = 0x10;
        const MODIFIED = 0x20;
        const HANDLE = 0x40;
        const ACCESSED_NOW = 0x80;
        const MODIFIED_NOW = 0x100;
    }
}

impl Flags for AttributeFlags {
    type Bits = u32;

    ghost exact = { ⊤ };

    ghost table = { (codes "MODE", 1) ∷ (codes "USER", 2) ∷ (codes "GROUP", 4) ∷ (codes "SIZE", 8)
        ∷ (codes "ACCESSED", 16) ∷ (codes "MODIFIED", 32) ∷ (codes "HANDLE", 64)
        ∷ (codes "ACCESSED_NOW", 128) ∷ (codes "MODIFIED_NOW", 256) ∷ [] };

    ghost set_of = { λ flags. flags.0 };

    fn flags<'a>() -> &'a [Flag<AttributeFlags>] {
        AttributeFlags::FLAGS
    }

    fn bits(&self) -> u32 {
        self.0
    }

    fn from_bits_retain(bits: u32) -> AttributeFlags {
        AttributeFlags(bits)
    }
}

/// How a file is opened or made: the flags of open(2), by their numbers on Linux. The file is for reading alone where neither
/// `WRITE_ONLY` nor `READ_WRITE` is set.
#[derive(Clone, Copy, PartialEq, Eq, Debug)]
pub struct OpenFlags(pub u32);

bitflag_items! {
    impl OpenFlags: u32 {
        const WRITE_ONLY = 1;
        const READ_WRITE = 2;
        const CREATE = 0o100;
        const EXCLUSIVE = 0o200;
        const TRUNCATE = 0o1000;
        const APPEND = 0o2000;
    }
}

impl Flags for OpenFlags {
    type Bits = u32;

    ghost exact = { ⊤ };

    ghost table = { (codes "WRITE_ONLY", 1) ∷ (codes "READ_WRITE", 2) ∷ (codes "CREATE", 64) ∷ (codes "EXCLUSIVE", 128)
        ∷ (codes "TRUNCATE", 512) ∷ (codes "APPEND", 1024) ∷ [] };

    ghost set_of = { λ flags. flags.0 };

    fn flags<'a>() -> &'a [Flag<OpenFlags>] {
        OpenFlags::FLAGS
    }

    fn bits(&self) -> u32 {
        self.0
    }

    fn from_bits_retain(bits: u32) -> OpenFlags {
        OpenFlags(bits)
    }
}

/// What a RENAME2 asks beyond a RENAME: the flags of renameat2(2).
#[derive(Clone, Copy, PartialEq, Eq, Debug)]
pub struct RenameFlags(pub u32);

bitflag_items! {
    impl RenameFlags: u32 {
        const NO_REPLACE = 1;
        const EXCHANGE = 2;
        const WHITEOUT = 4;
    }
}

impl Flags for RenameFlags {
    type Bits = u32;

    ghost exact = { ⊤ };

    ghost table = { (codes "NO_REPLACE", 1) ∷ (codes "EXCHANGE", 2) ∷ (codes "WHITEOUT", 4) ∷ [] };

    ghost set_of = { λ flags. flags.0 };

    fn flags<'a>() -> &'a [Flag<RenameFlags>] {
        RenameFlags::FLAGS
    }

    fn bits(&self) -> u32 {
        self.0
    }

    fn from_bits_retain(bits: u32) -> RenameFlags {
        RenameFlags(bits)
    }
}

/// Whether an extended attribute has to be new, or there already: the flags of setxattr(2).
#[derive(Clone, Copy, PartialEq, Eq, Debug)]
pub struct XattrFlags(pub u32);

bitflag_items! {
    impl XattrFlags: u32 {
        const CREATE = 1;
        const REPLACE = 2;
    }
}

impl Flags for XattrFlags {
    type Bits = u32;

    ghost exact = { ⊤ };

    ghost table = { (codes "CREATE", 1) ∷ (codes "REPLACE", 2) ∷ [] };

    ghost set_of = { λ flags. flags.0 };

    fn flags<'a>() -> &'a [Flag<XattrFlags>] {
        XattrFlags::FLAGS
    }

    fn bits(&self) -> u32 {
        self.0
    }

    fn from_bits_retain(bits: u32) -> XattrFlags {
        XattrFlags(bits)
    }
}

/// What Linux offers in an INIT, and what a server takes of it in its answer.
#[derive(Clone, Copy, PartialEq, Eq, Debug)]
pub struct InitFlags(pub u32);

bitflag_items! {
    impl InitFlags: u32 {
        const ASYNC_READ = 1;
        const ATOMIC_TRUNCATE = 8;
        const BIG_WRITES = 0x20;
        const DONT_MASK = 0x40;
        const POSIX_ACL = 0x100000;
        const MAX_PAGES = 0x400000;
    }
}

impl Flags for InitFlags {
    type Bits = u32;

    ghost exact = { ⊤ };

    ghost table = { (codes "ASYNC_READ", 1) ∷ (codes "ATOMIC_TRUNCATE", 8) ∷ (codes "BIG_WRITES", 32)
        ∷ (codes "DONT_MASK", 64) ∷ (codes "POSIX_ACL", 1048576) ∷ (codes "MAX_PAGES", 4194304) ∷ [] };

    ghost set_of = { λ flags. flags.0 };

    fn flags<'a>() -> &'a [Flag<InitFlags>] {
        InitFlags::FLAGS
    }

    fn bits(&self) -> u32 {
        self.0
    }

    fn from_bits_retain(bits: u32) -> InitFlags {
        InitFlags(bits)
    }
}
