//! How a point begins.
ghost use Rattle.std.specs.Prelude.{◌≡◌, ◌+◌, ◌*◌, ◌^◌, ◌<◌, ◌≤◌, Err, IsTrue, OnErr, OnOk};
ghost use Rattle.sn_block.specs.Lending.{device_of};
ghost use Rattle.sn_block.specs.declared.fault.ReadFault.TheVariants.{Memory};
ghost use Rattle.sn_log.specs.Clearing.{CountsClearing};
ghost use Rattle.sn_log.specs.Positions.{first_of};
ghost use Rattle.sn_cp.specs.Beginning.{Begins};

use sn_block::{Blocks, ReadFault};
use sn_device::Device;
use sn_layout::{Geometry, LogHalf};
use sn_log::{Log, close_half};

/// Clears the first place of the half that the root's own epoch doesn't have, and has the log continue there: what is logged
/// from then on, while the point runs, comes after its root. It reads a gate, so memory may be refused, before its one
/// write. Where it isn't done, the log continues as it did.
///
/// Proved: A point begins with one write and one sync in the half of the next epoch: a crash at any moment of it leaves the
/// root with its records and none newer, and at `Ok` the log is at the first place of that epoch, ready for a record
/// whatever a crash leaves.
/// Proved: Where a point isn't begun, the log continues where it was, and want of memory comes before the write.
pub fn begin<D: Device>(
    blocks: &mut Blocks<D>,
    geometry: Geometry,
    log: &mut Log,
) -> Result<(), ReadFault>
    requires room { 8 * geometry ≤ (D.status (device_of blocks.old)).sectors }
    requires same { log.old.blocks ≡ geometry }
    requires epoch { log.old.epoch + 1 < 2 ^ 64 }
    ensures bytes { IsTrue D.tells_bytes → Begins log.old result
        (D.disk (device_of blocks.old)) (D.disk (device_of blocks.new)) }
    ensures counts { CountsClearing result
        (D.status (device_of blocks.old)) (D.status (device_of blocks.new)) }
    ensures memory { IsTrue D.tells_bytes → result ≡ Err Memory → D.disk (device_of blocks.new) ≡ D.disk (device_of blocks.old) }
    ensures turned { OnOk result (log.new ≡ first_of log.old.blocks (log.old.epoch + 1)) }
    ensures stays { OnErr result (log.new ≡ log.old) }
{
    let epoch = log.position().epoch() + 1;
    match close_half(blocks, geometry, LogHalf::of_epoch(epoch)) {
        Ok(()) => {}
        Err(fault) => return Err(fault),
    }
    log.go_to_epoch(epoch);
    Ok(())
}
