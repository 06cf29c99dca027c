//! Why no newest root is found.
ghost use Rattle.std.specs.Prelude.{◌≡◌, Some};
ghost use Rattle.sn_root.specs.Fault.{block_of, damage_text, text_of};
ghost use Rattle.sn_root.specs.declared.fault.RootFault.TheVariants.{Damaged as DamagedFault, Read as ReadOf};

use crate::slots::body_block;
use sn_block::ReadFault;
use sn_layout::Slot;
use std::error::Error;
use std::fmt;

/// The block of the two gates.
pub(crate) const GATES_BLOCK: u32 = 3;

/// What is wrong with the slots that are open, where each of them names a version that is read.
#[derive(Clone, Copy, PartialEq, Eq)]
pub enum RootDamage {
    /// This slot's block spells no root body.
    Misspelt(Slot),
    /// Both have roots of one generation, so that none is the newer.
    EqualGenerations,
}

impl RootDamage {
    /// The block that it is reported of: 1 or 2 for a body, and 3, that of the gates, for both.
    pub fn block(self) -> u32
        ensures { result ≡ block_of self }
    {
        match self {
            RootDamage::Misspelt(slot) => body_block(slot),
            RootDamage::EqualGenerations => GATES_BLOCK,
        }
    }
}

impl fmt::Display for RootDamage {
    ghost output = { λ damage. Some (damage_text damage) };

    fn fmt<W: fmt::Write>(&self, f: &mut fmt::Formatter<W>) -> fmt::Result {
        match self {
            RootDamage::Misspelt(Slot::A) => write!(f, "the root in block 1 is damaged"),
            RootDamage::Misspelt(Slot::B) => write!(f, "the root in block 2 is damaged"),
            RootDamage::EqualGenerations => write!(f, "both roots have one generation"),
        }
    }
}

/// Why no newest root is found. Of several that are true the one that is first here comes, but
/// for a fault of the reading, which comes where a block can't be read that is needed to decide.
#[derive(Clone, Copy, PartialEq, Eq)]
pub enum RootFault {
    /// Neither slot is open.
    NoOpenRoot,
    /// An open slot names a version that isn't read.
    UnknownVersion,
    /// An open slot is damaged, or both together are.
    Damaged(RootDamage),
    /// A block couldn't be read.
    Read(ReadFault),
}

impl fmt::Display for RootFault {
    ghost output = { λ fault. Some (text_of fault) };

    fn fmt<W: fmt::Write>(&self, f: &mut fmt::Formatter<W>) -> fmt::Result {
        match self {
            RootFault::NoOpenRoot => write!(f, "no root is open"),
            RootFault::UnknownVersion => write!(f, "a root has an unknown version"),
            RootFault::Damaged(damage) => damage.fmt(f),
            RootFault::Read(fault) => fault.fmt(f),
        }
    }
}

impl From<RootDamage> for RootFault {
    ghost from_gives = { λ damage fault. fault ≡ DamagedFault damage };

    fn from(damage: RootDamage) -> RootFault {
        RootFault::Damaged(damage)
    }
}

impl From<ReadFault> for RootFault {
    ghost from_gives = { λ read fault. fault ≡ ReadOf read };

    fn from(fault: ReadFault) -> RootFault {
        RootFault::Read(fault)
    }
}
