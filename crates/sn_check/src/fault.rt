//! What faults of the parts make of a check.
ghost use Rattle.std.specs.Prelude.{◌≡◌};
ghost use Rattle.sn_check.specs.Faults.{fault_of_check};

use sn_examine::fault_of;
use sn_marks::CheckFault;
use sn_model::MountFault;

pub(crate) fn fault_of_check(fault: CheckFault) -> MountFault
    ensures { result ≡ fault_of_check fault }
{
    match fault {
        CheckFault::Damaged { damage, block } => MountFault::Damaged { damage, block },
        CheckFault::Read(fault) => fault_of(fault),
    }
}
