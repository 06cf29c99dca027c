//! What a check says of a disk.
ghost use Rattle.std.specs.Prelude.{◌≡◌};
ghost use Rattle.sn_check.specs.Verdicts.{verdict_of};

use sn_model::{Damage, MountFault};
use std::fmt;

/// What a check says of a disk.
#[derive(Clone, Copy, Debug, PartialEq, Eq)]
pub enum Verdict {
    /// It is sound, and no root reaches so many of its data blocks.
    Clean { free: u32 },
    /// What is wrong, and the block where it is, or, for C2, the pointer.
    Fault { damage: Damage, block: u32 },
}

impl fmt::Display for Verdict {
    ghost use Rattle.std.specs.Prelude.{Some};
    ghost use Rattle.sn_check.specs.Verdicts.{verdict_text};

    ghost output = { λ verdict. Some (verdict_text verdict) };

    fn fmt<W: fmt::Write>(&self, f: &mut fmt::Formatter<W>) -> fmt::Result {
        match *self {
            Verdict::Clean { free } => write!(f, "clean {free}"),
            Verdict::Fault { damage, block } => write!(f, "fault {damage} {block}"),
        }
    }
}

/// A damage is a verdict, and any other fault none.
pub(crate) fn verdict_of(fault: MountFault) -> Result<Verdict, MountFault>
    ensures { result ≡ verdict_of fault }
{
    match fault {
        MountFault::Damaged { damage, block } => Ok(Verdict::Fault { damage, block }),
        other => Err(other),
    }
}
