//! The outcomes of calls over the trees of a root on a device.
ghost use Rattle.std.specs.Prelude.{◌≡◌, IsOk, IsTrue, IfErr, IfNone, IfOk, IfSome};
ghost use Rattle.sn_block.specs.Lending.{device_of};
ghost use Rattle.sn_core_decide_rules.specs.Decided.{IsRefusedAtOnce, MayLack};
ghost use Rattle.sn_limits.specs.Versions.{limits_written};
ghost use Rattle.sn_live_world.specs.Faults.{CountsCall};
ghost use Rattle.sn_live_world.specs.Turned.{Decides, HidesNoRefusal};
ghost use Rattle.sn_live_world.specs.declared.fault.CallFault.TheVariants.{Read};
ghost use Rattle.sn_model.specs.Steps.{decision};
ghost use Rattle.sn_model.specs.Worlds.{IsCall};
ghost use Rattle.sn_rooted.specs.Roots.{AreSound, store_on, tree_on, trees_at};

use crate::LiveWorld;
use crate::fault::{CallFault, look_fault_of};
use sn_block::Blocks;
use sn_core_decide_rules::CallError;
use sn_device::Device;
use sn_layout::RootBody;
use sn_live_view::{decide_live, decide_unread};
use sn_model::{Call, Outcome};
use sn_rooted_tree::RootedTree;
use std::alloc::Global;

impl LiveWorld {
    ghost use Rattle.sn_live_world.specs.World.{IsOver, world_in};

    // The same of a call that may find no memory, once its session and arguments have passed.
    fn decide_read<'c, D: Device>(
        &self,
        alloc: Global,
        blocks: &mut Blocks<D>,
        root: &RootBody,
        session: u32,
        call: &'c Call,
    ) -> Result<Outcome<'c>, CallFault>
        requires readable { IsTrue D.tells_bytes → AreSound (D.status (device_of blocks.old)).sectors (store_on blocks.old) root.now }
        requires live { IsTrue D.tells_bytes → IsOver self.now (tree_on blocks.old root.now.inode_file) }
        requires passed { MayLack (world_in self.now (trees_at (store_on blocks.old) root.now)) session call.now }
        ensures decided { IsTrue D.tells_bytes → Decides (world_in self.now (trees_at (store_on blocks.old) root.now)) session call.now result }
        ensures numbers { IfOk result (λ o. IsCall call.now) }
        ensures same { IsTrue D.tells_bytes → D.disk (device_of blocks.new) ≡ D.disk (device_of blocks.old) }
        ensures counts { CountsCall D.tells_bytes result (D.status (device_of blocks.old)) (D.status (device_of blocks.new)) }
    {
        let mut tree = RootedTree {
            alloc,
            blocks,
            root,
            fault: None,
        };
        let decided = decide_live(alloc, &mut tree, &self.live, &self.sessions, session, call);
        match tree.fault {
            Some(fault) => Err(CallFault::from(look_fault_of(fault))),
            None => match decided {
                Ok(outcome) => Ok(outcome),
                Err(CallError::Refused(refusal)) => Err(CallFault::Refused(refusal)),
                // No look-up has failed.
                Err(_) => Err(CallFault::Memory),
            },
        }
    }

    // The outcome of a call, as far as it needs no look-up, and `None` where it needs one: then its session and
    // arguments have passed.
    fn decide_alone<'c, D: Device>(
        &self,
        alloc: Global,
        blocks: &mut Blocks<D>,
        root: &RootBody,
        session: u32,
        call: &'c Call,
    ) -> Option<Result<Outcome<'c>, CallFault>>
        ensures decided { IfSome result (λ r. Decides (world_in self.now (trees_at (store_on blocks.old) root.now)) session call.now r) }
        ensures refused { IfSome result (λ r. HidesNoRefusal (world_in self.now (trees_at (store_on blocks.old) root.now)) session call.now r) }
        ensures passed { IfNone result (MayLack (world_in self.now (trees_at (store_on blocks.old) root.now)) session call.now) }
        ensures unrefused { IfNone result (IsRefusedAtOnce call.now → IsOk (decision limits_written (world_in self.now (trees_at (store_on blocks.old) root.now)) session call.now)) }
        ensures numbers { IfSome result (λ r. IfOk r (λ o. IsCall call.now)) }
        ensures unread { IfSome result (λ r. IfErr r (λ e. e ≡ Read → ⊥)) }
        ensures same { D.disk (device_of blocks.new) ≡ D.disk (device_of blocks.old) }
        ensures idle { D.status (device_of blocks.new) ≡ D.status (device_of blocks.old) }
    {
        let tree = RootedTree {
            alloc,
            blocks,
            root,
            fault: None,
        };
        match decide_unread(alloc, &tree, &self.live, &self.sessions, session, call) {
            Ok(outcome) => Some(Ok(outcome)),
            Err(CallError::Refused(refusal)) => Some(Err(CallFault::Refused(refusal))),
            Err(CallError::Memory) => Some(Err(CallFault::Memory)),
            Err(CallError::View(_)) => None,
        }
    }

    /// The outcome of a call, or why it has none. `Memory` and `Read` come only once its session and arguments have
    /// passed, and of calls that may find no memory. Nothing changes. A call that needs no look-up reads nothing.
    ///
    /// Proved: The outcome of a call over a sound root and its snapshots, its live tree seen through what changed since, is
    /// exactly the model's, where the device tells its bytes; a call that needs no look-up reads nothing, and before memory
    /// is refused or a read fails, session and arguments had passed.
    /// Proved: A `snap-delete` or `snap-restore` that the model refuses is refused so, whatever memory and the device do: no
    /// failure hides a refusal.
    /// Proved, also of `prepare_change` and `prepare_restore`: Nothing is counted of the device but a read that failed.
    pub fn decide<'c, D: Device>(
        &self,
        alloc: Global,
        blocks: &mut Blocks<D>,
        root: &RootBody,
        session: u32,
        call: &'c Call,
    ) -> Result<Outcome<'c>, CallFault>
        requires readable { IsTrue D.tells_bytes → AreSound (D.status (device_of blocks.old)).sectors (store_on blocks.old) root.now }
        requires live { IsTrue D.tells_bytes → IsOver self.now (tree_on blocks.old root.now.inode_file) }
        ensures decided { IsTrue D.tells_bytes → Decides (world_in self.now (trees_at (store_on blocks.old) root.now)) session call.now result }
        ensures refused { HidesNoRefusal (world_in self.now (trees_at (store_on blocks.old) root.now)) session call.now result }
        ensures numbers { IfOk result (λ o. IsCall call.now) }
        ensures same { IsTrue D.tells_bytes → D.disk (device_of blocks.new) ≡ D.disk (device_of blocks.old) }
        ensures counts { CountsCall D.tells_bytes result (D.status (device_of blocks.old)) (D.status (device_of blocks.new)) }
    {
        match self.decide_alone(alloc, blocks, root, session, call) {
            Some(decided) => decided,
            None => self.decide_read(alloc, blocks, root, session, call),
        }
    }
}
