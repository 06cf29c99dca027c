//! Why a tree isn't planned.
ghost use Rattle.std.specs.Prelude.{◌≡◌, Some};
ghost use Rattle.sn_tree.specs.Fault.{text_of};
ghost use Rattle.sn_tree.specs.declared.fault.PlanFault.TheVariants.{Tree, Memory, Full as NoneLeft};

use sn_alloc::Full;
use sn_tree_read::TreeFault;
use std::alloc::AllocError;
use std::error::Error;
use std::fmt;

/// Why a tree isn't planned.
#[derive(Clone, Copy, Debug, PartialEq, Eq)]
pub enum PlanFault {
    /// The old tree isn't read.
    Tree(TreeFault),
    /// There is no memory for the new blocks.
    Memory,
    /// No block is left.
    Full,
}

impl fmt::Display for PlanFault {
    ghost output = { λ fault. Some (text_of fault) };

    fn fmt<W: fmt::Write>(&self, f: &mut fmt::Formatter<W>) -> fmt::Result {
        match self {
            PlanFault::Tree(fault) => write!(f, "{fault}"),
            PlanFault::Memory => write!(f, "out of memory"),
            PlanFault::Full => write!(f, "no block is left"),
        }
    }
}

impl Error for PlanFault {}

impl From<TreeFault> for PlanFault {
    ghost from_gives = { λ tree fault. fault ≡ Tree tree };

    fn from(fault: TreeFault) -> PlanFault {
        PlanFault::Tree(fault)
    }
}

impl From<AllocError> for PlanFault {
    ghost from_gives = { λ _ fault. fault ≡ Memory };

    fn from(_error: AllocError) -> PlanFault {
        PlanFault::Memory
    }
}

impl From<Full> for PlanFault {
    ghost from_gives = { λ _ fault. fault ≡ NoneLeft };

    fn from(_full: Full) -> PlanFault {
        PlanFault::Full
    }
}
