//! Clearing a place, so that no record there counts.
ghost use Rattle.std.specs.Prelude.{◌≡◌, ◌+◌, ◌*◌, ◌≤◌, ◌==◌, ◌||◌, if◌then◌else◌, nat_le, slice_index, Err, IsTrue};
ghost use Rattle.sn_block.specs.Lending.{device_of};
ghost use Rattle.sn_block.specs.declared.fault.ReadFault.TheVariants.{Memory};
ghost use Rattle.sn_log.specs.Positions.{half_base};
ghost use Rattle.sn_log.specs.Clearing.{Clears, CountsClearing};

use crate::position::LAST_GATE;
use crate::sectors::{first_block, read_sector};
use sn_block::{Blocks, ReadFault};
use sn_device::Device;
use sn_layout::{Gate, Geometry, LogHalf, Sector};

// The place that is written to clear this one, of whose gate the sector is given.
fn cleared_place(gate: &Sector, place: u64) -> u64
    requires { place ≤ 255 }
    ensures value { result ≡ (if (slice_index gate.now 0 == 1) || nat_le 254 place then place else place + 1) }
    ensures within { result ≤ 255 }
{
    if Gate::decode(gate) == Gate::Open || place > LAST_GATE {
        place
    } else {
        place + 1
    }
}

/// Clears a place of a half, with one write and one sync, so that no record counts there. A closed gate
/// is left alone where a record has room after it, since a torn write might open it over a whole body.
///
/// Proved, also of `close_half`: Clearing a place writes one sector, syncs, and at no moment changes the records before it;
/// after it the place is closed after each crash.
pub fn clear<D: Device>(
    blocks: &mut Blocks<D>,
    geometry: Geometry,
    half: LogHalf,
    place: u64,
) -> Result<(), ReadFault>
    requires place { place ≤ 255 }
    requires disk { 8 * geometry ≤ (D.status (device_of blocks.old)).sectors }
    ensures disk { IsTrue D.tells_bytes → Clears (half_base geometry half) place result
        (D.disk (device_of blocks.old)) (D.disk (device_of blocks.new)) }
    ensures counts { CountsClearing result
        (D.status (device_of blocks.old)) (D.status (device_of blocks.new)) }
    ensures memory { IsTrue D.tells_bytes → result ≡ Err Memory → D.disk (device_of blocks.new) ≡ D.disk (device_of blocks.old) }
{
    let start = first_block(geometry, half);
    let mut gate = [0; 512];
    read_sector(blocks, start, place, &mut gate)?;
    let at = 8 * u64::from(start) + cleared_place(&gate, place);
    blocks.write_synced(at, &[0; 512])?;
    Ok(())
}

/// Clears the first place of a half.
pub fn close_half<D: Device>(
    blocks: &mut Blocks<D>,
    geometry: Geometry,
    half: LogHalf,
) -> Result<(), ReadFault>
    requires { 8 * geometry ≤ (D.status (device_of blocks.old)).sectors }
    ensures disk { IsTrue D.tells_bytes → Clears (half_base geometry half) 0 result
        (D.disk (device_of blocks.old)) (D.disk (device_of blocks.new)) }
    ensures counts { CountsClearing result
        (D.status (device_of blocks.old)) (D.status (device_of blocks.new)) }
    ensures memory { IsTrue D.tells_bytes → result ≡ Err Memory → D.disk (device_of blocks.new) ≡ D.disk (device_of blocks.old) }
{
    clear(blocks, geometry, half, 0)
}
