ghost use Rattle.std.specs.Prelude.{◌≡◌, ◌<◌, ◌↔◌, IsSome, IfSome};

use crate::Permissions;

/// The nine permission bits of a file or a directory, by the class that each three are for.
#[derive(Clone, Copy, PartialEq, Eq, Hash)]
pub struct Mode {
    pub owner: Permissions,
    pub group: Permissions,
    pub other: Permissions,
}

impl Mode {
    ghost use Rattle.sn_acl.specs.Modes.{common_mode, mode_without, mode_bits};

    /// The mode with these bits, as in an octal literal. `None` above 0o777.
    pub fn from_bits(bits: u16) -> Option<Self>
        ensures valid { IsSome result ↔ (bits < 512) }
        ensures value { IfSome result (λ mode. mode_bits mode ≡ bits) }
    {
        if bits >= 512 {
            return None;
        }
        Some(Mode {
            owner: Permissions::from_low_bits(bits / 64),
            group: Permissions::from_low_bits(bits / 8),
            other: Permissions::from_low_bits(bits),
        })
    }

    /// The bits as a number, three for the owner, three for the group and three for others.
    pub fn bits(self) -> u16
        ensures value { result ≡ mode_bits self }
        ensures within { result < 512 }
    {
        64 * u16::from(self.owner.bits())
            + 8 * u16::from(self.group.bits())
            + u16::from(self.other.bits())
    }

    /// What is in both modes.
    pub fn intersection(self, other: Mode) -> Self
        ensures { result ≡ common_mode self other }
    {
        Mode {
            owner: self.owner.intersection(other.owner),
            group: self.group.intersection(other.group),
            other: self.other.intersection(other.other),
        }
    }

    /// What is in this mode and not in the other, as in a mode less a umask.
    pub fn difference(self, other: Mode) -> Self
        ensures { result ≡ mode_without self other }
    {
        Mode {
            owner: self.owner.difference(other.owner),
            group: self.group.difference(other.group),
            other: self.other.difference(other.other),
        }
    }
}
