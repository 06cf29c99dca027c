ghost use Rattle.std.specs.Prelude.{ℕ, ◌≡◌, ◌<◌, ◌%◌, ◌↔◌, ◌∷◌, [], ⊤, codes, IsSome, IfSome};
ghost use Rattle.sn_acl.specs.Rights.{contains, common, joined, without, permissions_text};

use bitflags::{Flag, Flags, bitflag_items};
use std::fmt;
use std::marker::Model;

// The bits of a set of rights, where bits that name no right may be set too.
#[derive(Clone, Copy, PartialEq, Eq, Hash)]
struct Rights(u8);

bitflag_items! {
    impl Rights: u8 {
        const READ = 4;
        const WRITE = 2;
        const EXECUTE = 1;
    }
}

impl Flags for Rights {
    type Bits = u8;

    ghost exact = { ⊤ };

    ghost table = { (codes "READ", 4) ∷ (codes "WRITE", 2) ∷ (codes "EXECUTE", 1) ∷ [] };

    ghost set_of = { λ rights. rights.0 };

    fn flags<'a>() -> &'a [Flag<Rights>] {
        Rights::FLAGS
    }

    fn bits(&self) -> u8 {
        self.0
    }

    fn from_bits_retain(bits: u8) -> Rights {
        Rights(bits)
    }
}

/// A set of the rights read, write and execute (of a directory: search), seen as a number below 8.
#[derive(Clone, Copy, PartialEq, Eq, Hash)]
pub struct Permissions {
    rights: Rights,
}

impl Model for Permissions {
    ghost Value = { ℕ };

    ghost view = { λ p. p.rights.0 };

    ghost invariant = { λ p. p.rights.0 < 8 };

    ghost inverse = { λ n. record { rights = record { 0 = n } } };
}

impl Permissions {
    pub const NONE: Permissions = Permissions { rights: Rights(0) };

    pub const EXECUTE: Permissions = Permissions {
        rights: Rights::EXECUTE,
    };

    pub const WRITE: Permissions = Permissions {
        rights: Rights::WRITE,
    };

    pub const READ: Permissions = Permissions {
        rights: Rights::READ,
    };

    pub const ALL: Permissions = Permissions { rights: Rights(7) };

    /// The rights with these bits: read is 4, write 2, execute 1. `None` where another bit is set.
    pub fn from_bits(bits: u8) -> Option<Self>
        ensures valid { IsSome result ↔ (bits < 8) }
        ensures value { IfSome result (λ p. p ≡ bits) }
    {
        if bits < 8 {
            Some(Permissions {
                rights: Rights::from_bits_retain(bits),
            })
        } else {
            None
        }
    }

    /// The rights in the lowest three bits.
    pub(crate) fn from_low_bits(bits: u16) -> Self
        ensures { result ≡ bits % 8 }
    {
        Permissions {
            rights: Rights::from_bits_retain((bits % 8) as u8),
        }
    }

    /// The set as a number: read is 4, write 2, execute 1.
    pub fn bits(self) -> u8
        ensures value { result ≡ self }
        ensures within { result < 8 }
    {
        self.rights.bits()
    }

    /// The three letters of `r`, `w` and `x`, with `-` for each right that is not in the set.
    pub fn as_str(self) -> &'static str
        ensures { result.now ≡ permissions_text self }
    {
        match self.bits() {
            0 => "---",
            1 => "--x",
            2 => "-w-",
            3 => "-wx",
            4 => "r--",
            5 => "r-x",
            6 => "rw-",
            _ => "rwx",
        }
    }

    /// The rights that these three letters name. `None` for any other text.
    pub fn parse(letters: &[u8]) -> Option<Self>
        ensures found { IfSome result (λ p. (letters.now ≡ permissions_text p) × p < 8) }
        ensures only { (p : ℕ) → p < 8 → letters.now ≡ permissions_text p → result ≡ Some p }
    {
        for bits in 0..8 {
            let permissions = Permissions {
                rights: Rights(bits),
            };
            if permissions.as_str().as_bytes() == letters {
                return Some(permissions);
            }
        }
        None
    }

    /// Whether all that is wanted is in this set.
    pub fn contains(self, wanted: Permissions) -> bool
        ensures { result ≡ contains self wanted }
    {
        self.rights.contains(wanted.rights)
    }

    /// The rights that are in both sets.
    pub fn intersection(self, other: Permissions) -> Self
        ensures { result ≡ common self other }
    {
        Permissions {
            rights: self.rights.intersection(other.rights),
        }
    }

    /// The rights that are in either set.
    pub fn union(self, other: Permissions) -> Self
        ensures { result ≡ joined self other }
    {
        Permissions {
            rights: self.rights.union(other.rights),
        }
    }

    /// The rights of this set that the other lacks.
    pub fn difference(self, other: Permissions) -> Self
        ensures { result ≡ without self other }
    {
        Permissions {
            rights: self.rights.difference(other.rights),
        }
    }
}

impl Default for Permissions {
    ghost is_default = { λ p. p ≡ 0 };

    fn default() -> Self {
        Permissions::NONE
    }
}

impl fmt::Display for Permissions {
    ghost use Rattle.std.specs.Prelude.{Some};
    ghost use Rattle.sn_acl.specs.Rights.{permissions_text};

    ghost output = { λ p. Some (permissions_text p) };

    fn fmt<W: fmt::Write>(&self, f: &mut fmt::Formatter<W>) -> fmt::Result {
        f.write_str(self.as_str())
    }
}
