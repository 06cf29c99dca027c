//! The writes of an append.
ghost use Rattle.std.specs.Prelude.{◌≡◌, ◌+◌, ◌*◌, ◌/◌, ◌%◌, ◌≤◌, length, IsTrue, IfOk};
ghost use Rattle.sn_block.specs.Counts.{CountsCalls};
ghost use Rattle.sn_block.specs.Lending.{device_of};
ghost use Rattle.sn_ondisk.specs.LogHalf.{body_sectors};
ghost use Rattle.sn_record.specs.Payload.{payload_bytes};
ghost use Rattle.sn_log.specs.Positions.{HasRoom};
ghost use Rattle.sn_log.specs.Appending.{Appends, WritesBehind};

use crate::Position;
use crate::body::put_body;
use crate::sectors::sector_of;
use sn_block::Blocks;
use sn_device::{Device, Fault};
use sn_layout::{Gate, SECTOR_SIZE};
use sn_record::Payload;

/// Writes a body after the gate in the sector `at`, closes the gate after the body, and syncs.
fn write_behind<D: Device>(blocks: &mut Blocks<D>, at: u64, body: &[u8]) -> Result<(), Fault>
    requires whole { length body.now % 512 ≡ 0 }
    requires room { at + length body.now / 512 + 2 ≤ (D.status (device_of blocks.old)).sectors }
    ensures disk { IsTrue D.tells_bytes → WritesBehind at (length body.now / 512) body.now result
        (D.disk (device_of blocks.old)) (D.disk (device_of blocks.new)) }
    ensures counts { CountsCalls (length body.now / 512 + 1) 1 result
        (D.status (device_of blocks.old)) (D.status (device_of blocks.new)) }
{
    // It bounds the numbers of the sectors.
    let _sectors = blocks.sectors();
    let next = at + 1 + (body.len() / SECTOR_SIZE) as u64;
    blocks.write_stretch(at + 1, body)?;
    blocks.write_sector(next, &sector_of(Gate::Closed))?;
    blocks.sync()
}

/// Appends the record of a change at a position, with room for its body, and answers how many sectors the body takes.
pub(crate) fn append_at<D: Device>(
    blocks: &mut Blocks<D>,
    position: Position,
    room: &mut [u8; 66_048],
    payload: &Payload<'_>,
) -> Result<u64, Fault>
    requires room { HasRoom position payload.now }
    requires disk { 8 * position.blocks ≤ (D.status (device_of blocks.old)).sectors }
    ensures disk { IsTrue D.tells_bytes → Appends position payload.now result
        (D.disk (device_of blocks.old)) (D.disk (device_of blocks.new)) }
    ensures counts { CountsCalls (body_sectors (payload_bytes payload.now) + 2) 2 result
        (D.status (device_of blocks.old)) (D.status (device_of blocks.new)) }
    ensures sectors { IfOk result (λ sectors. sectors ≡ body_sectors (payload_bytes payload.now)) }
{
    let gate = 8 * u64::from(position.start()) + position.place();
    let size = put_body(room, position.epoch(), position.count(), payload);
    write_behind(blocks, gate, &room[..size])?;
    blocks.write_synced(gate, &sector_of(Gate::Open))?;
    Ok((size / SECTOR_SIZE) as u64)
}
