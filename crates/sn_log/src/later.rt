//! Whether a half has a record of a later epoch.
ghost use Rattle.std.specs.Prelude.{◌≡◌, ◌*◌, ◌≤◌, ◌↔◌, IsTrue, IfOk};
ghost use Rattle.sn_device.specs.Disk.{reads};
ghost use Rattle.sn_block.specs.Counts.{CountsRead};
ghost use Rattle.sn_block.specs.Lending.{device_of};
ghost use Rattle.sn_ondisk.specs.LogHalf.{HasNoLater};
ghost use Rattle.sn_log.specs.Positions.{half_base};

use crate::body::Head;
use crate::sectors::{first_block, read_sector};
use sn_block::{Blocks, ReadFault};
use sn_device::Device;
use sn_layout::{Gate, Geometry, LogHalf, Reader};

/// Whether no record of an epoch later than this one is at the first place of a half: the gate there is
/// closed, or what follows it names this epoch or an earlier one. It reads the first block of the half,
/// which is spelled however it may be, and writes nothing.
///
/// Proved: The test is exact, over any bytes, whether a record of a later epoch is at the first place of a half.
pub fn has_no_later<D: Device>(
    blocks: &mut Blocks<D>,
    geometry: Geometry,
    half: LogHalf,
    epoch: u64,
) -> Result<bool, ReadFault>
    requires { 8 * geometry ≤ (D.status (device_of blocks.old)).sectors }
    ensures told { IsTrue D.tells_bytes → IfOk result (λ has_none. IsTrue has_none
        ↔ HasNoLater (reads (D.disk (device_of blocks.old))) (half_base geometry half) epoch) }
    ensures same { IsTrue D.tells_bytes
        → D.disk (device_of blocks.new) ≡ D.disk (device_of blocks.old) }
    ensures counts { CountsRead result
        (D.status (device_of blocks.old)) (D.status (device_of blocks.new)) }
{
    let start = first_block(geometry, half);
    let mut sector = [0; 512];
    read_sector(blocks, start, 0, &mut sector)?;
    let Gate::Open = Gate::decode(&sector) else {
        return Ok(true);
    };
    read_sector(blocks, start, 1, &mut sector)?;
    let head = Head::read(&mut Reader::new(&sector));
    Ok(head.epoch <= epoch)
}
