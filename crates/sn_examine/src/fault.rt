//! What a failed read, a tree that can't be read, and slots without a newest root make of a mount.
ghost use Rattle.std.specs.Prelude.{◌≡◌};
ghost use Rattle.sn_examine.specs.Examining.{root_fault};
ghost use Rattle.sn_examine.specs.Failing.{read_fault};
ghost use Rattle.sn_examine.specs.Loading.{fault_of_tree};

use sn_block::ReadFault;
use sn_model::{Damage, MountFault};
use sn_root::RootFault;
use sn_tree_read::TreeFault;

/// What a mount answers where a block can't be read: `Device` where a sector of it failed, `Memory` where there was
/// none to keep it. Nothing is said of the bytes.
pub fn fault_of(fault: ReadFault) -> MountFault
    ensures { result ≡ read_fault fault }
{
    match fault {
        ReadFault::Device => MountFault::Device,
        ReadFault::Memory => MountFault::Memory,
    }
}

/// What a mount answers where a tree can't be read. What can't be read of it is misspelt, which is reported at its block, and
/// where the fault has none, at that of the root's body.
pub fn fault_of_tree(fault: TreeFault, body: u32) -> MountFault
    ensures { result ≡ fault_of_tree fault body }
{
    match fault {
        TreeFault::Read(fault) => fault_of(fault),
        TreeFault::Damaged { block } => MountFault::Damaged {
            damage: Damage::Misspelt,
            block: block.unwrap_or(body),
        },
    }
}

pub(crate) fn root_fault(fault: RootFault) -> MountFault
    ensures { result ≡ root_fault fault }
{
    match fault {
        RootFault::NoOpenRoot => MountFault::NoRoot,
        RootFault::UnknownVersion => MountFault::Version,
        RootFault::Damaged(damage) => MountFault::Damaged {
            damage: Damage::Root,
            block: damage.block(),
        },
        RootFault::Read(fault) => fault_of(fault),
    }
}
