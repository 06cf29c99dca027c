//! Why a root isn't gone through to its end.
ghost use Rattle.std.specs.Prelude.{◌≡◌};
ghost use Rattle.sn_model.specs.declared.fault.Damage.TheVariants.{Misspelt};
ghost use Rattle.sn_marks.specs.declared.fault.CheckFault.TheVariants.{Damaged, Read};

use sn_block::ReadFault;
use sn_model::Damage;

/// Why a root isn't gone through to its end.
#[derive(Clone, Copy, Debug, PartialEq, Eq)]
pub enum CheckFault {
    /// The image is damaged: what is wrong, and the block that it is reported at.
    Damaged { damage: Damage, block: u32 },
    /// A block isn't read, or there is no memory.
    Read(ReadFault),
}

impl CheckFault {
    /// A block spells no value of its kind, or breaks a rule of trees.
    pub fn misspelt(block: u32) -> Self
        ensures { result ≡ Damaged Misspelt block }
    {
        CheckFault::Damaged {
            damage: Damage::Misspelt,
            block,
        }
    }
}

impl From<ReadFault> for CheckFault {
    ghost from_gives = { λ fault check. check ≡ Read fault };

    fn from(fault: ReadFault) -> CheckFault {
        CheckFault::Read(fault)
    }
}
