//! Why a root isn't read, and why a call isn't done.
ghost use Rattle.std.specs.Prelude.{◌≡◌};
ghost use Rattle.sn_live_world.specs.Faults.{call_fault_of, look_fault_of};

use sn_block::ReadFault;
use sn_model::Refusal;
use sn_tree_read::TreeFault;

/// Why a look-up of a root has no answer.
#[derive(Clone, Copy)]
pub enum LookFault {
    /// Memory was refused.
    Memory,
    /// A block couldn't be read, or was misspelt. The latter comes only from a device that doesn't tell its bytes, as one
    /// that gives others than before.
    Read,
}

/// Why a call has no outcome.
#[derive(Drop)]
pub enum CallFault {
    /// A test refuses it.
    Refused(Refusal),
    /// Memory was refused, for its answer or for a look-up.
    Memory,
    /// A block couldn't be read, or was misspelt, as for a look-up.
    Read,
}

/// How a fault of a root's tree is reported.
pub(crate) fn look_fault_of(fault: TreeFault) -> LookFault
    ensures { result ≡ look_fault_of fault }
{
    match fault {
        TreeFault::Read(ReadFault::Memory) => LookFault::Memory,
        TreeFault::Read(ReadFault::Device) | TreeFault::Damaged { .. } => LookFault::Read,
    }
}

impl From<LookFault> for CallFault {
    ghost use Rattle.std.specs.Prelude.{◌≡◌};
    ghost use Rattle.sn_live_world.specs.Faults.{call_fault_of};

    ghost from_gives = { λ fault e. e ≡ call_fault_of fault };

    fn from(fault: LookFault) -> CallFault {
        match fault {
            LookFault::Memory => CallFault::Memory,
            LookFault::Read => CallFault::Read,
        }
    }
}
