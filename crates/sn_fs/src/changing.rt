//! A change in the log and in memory.
ghost use Rattle.std.specs.Prelude.{◌≡◌, ◌+◌, ◌*◌, ◌<◌, ◌≤◌, ◌^◌, false, Some, IfErr, IfOk, IsTrue, OnErr, OnOk};
ghost use Rattle.sn_block.specs.Lending.{device_of};
ghost use Rattle.sn_desc.specs.InUse.{live_in};
ghost use Rattle.sn_events.specs.Changing.{Changes, change_fault, stops};
ghost use Rattle.sn_fs.specs.Filesystem.{IsFs, has_stopped, held, tree_of};
ghost use Rattle.sn_limits.specs.Versions.{limits_written};
ghost use Rattle.sn_live_world.specs.World.{HasDrops, IsOver, descriptors_of, nameless_of, point_of, room_of};
ghost use Rattle.sn_log.specs.Positions.{HasRoom as HasLogRoom};
ghost use Rattle.sn_model.specs.Changes.{apply};
ghost use Rattle.sn_model.specs.Settling.{OnlyLost};
ghost use Rattle.sn_model.specs.Tree.{Tree};
ghost use Rattle.sn_held.specs.Rooms.{logged};

use crate::Fs;
use sn_device::Device;
use sn_events::ChangeFault;
use sn_live_world::LookFault;
use sn_record::Payload;

/// Why a change isn't made whose blocks couldn't be looked at.
fn fault_of(fault: LookFault) -> ChangeFault
    ensures { result ≡ change_fault fault }
{
    match fault {
        LookFault::Memory => ChangeFault::Memory,
        LookFault::Read => ChangeFault::Read,
    }
}

impl<D: Device> Fs<D> {
    /// Appends the record of a change, charges it, and makes it in what changed since the root; it answers the file that
    /// loses its last name by it, if one does. All that has to be read, and all memory that it needs, is asked for before the
    /// first write, also for the drop of each file that is open after it.
    pub(crate) fn log_change(
        &mut self,
        payload: &Payload<'_>,
        charge: u64,
    ) -> Result<Option<u16>, ChangeFault>
        requires running { has_stopped self.old ≡ false }
        requires sound { IsFs self.old }
        requires can { IsTrue D.tells_bytes → (tree : Tree) × (apply limits_written payload.now (held self.old).world.live ≡ Some tree) }
        requires room { HasLogRoom self.old.log payload.now }
        requires charge { self.old.room.charged + charge < 2 ^ 64 }
        ensures made { IsTrue D.tells_bytes → Changes result payload.now charge (held self.old) (held self.new) }
        ensures over { IsTrue D.tells_bytes → OnOk result (IsOver self.new.world (tree_of self.new)) }
        ensures lost { IsTrue D.tells_bytes → IfOk result (OnlyLost (held self.new).world) }
        ensures charged { OnOk result (self.new.room ≡ logged charge self.old.room) }
        ensures same { OnErr result (self.new.room ≡ self.old.room) }
        ensures stopped { has_stopped self.new ≡ has_stopped self.old }
        ensures places { (room_of self.new.world ≡ room_of self.old.world) × (descriptors_of self.new.world ≡ descriptors_of self.old.world) }
        ensures drops { OnOk result (HasDrops self.new.world (live_in (descriptors_of self.old.world) + 2)) }
        ensures kept { OnErr result (HasDrops self.new.world (live_in (descriptors_of self.old.world))) }
        ensures nameless { OnErr result (nameless_of self.new.world ≡ nameless_of self.old.world) }
        ensures point { point_of self.new.world ≡ point_of self.old.world }
        ensures meant { IfErr result (λ fault. stops fault ≡ false → IsFs self.new) }
        ensures base { self.new.base ≡ self.old.base }
        ensures going { self.new.going ≡ self.old.going }
        ensures blocks { self.new.log.blocks ≡ self.old.log.blocks }
        ensures epoch { self.new.log.epoch ≡ self.old.log.epoch }
        ensures sectors { (D.status (device_of self.new.blocks)).sectors ≡ (D.status (device_of self.old.blocks)).sectors }
    {
        let prepared = match self.world.prepare_change(
            self.alloc,
            &mut self.blocks,
            &self.base.root,
            payload.change(),
        ) {
            Ok(Some(prepared)) => prepared,
            // Over a device that tells its bytes a change that was decided can be made.
            Ok(None) => return Err(ChangeFault::Read),
            Err(fault) => return Err(fault_of(fault)),
        };
        match self.log.append(&mut self.blocks, payload) {
            Ok(()) => {
                self.room.log(charge);
                Ok(self.world.commit(prepared))
            }
            Err(_) => Err(ChangeFault::Device),
        }
    }
}
