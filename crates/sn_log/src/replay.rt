//! Replay.
ghost use Rattle.std.specs.Prelude.{◌≡◌, ◌+◌, ◌*◌, ◌/◌, ◌≤◌, ◌++◌, List, IsTrue, IfOk, OnErr};
ghost use Rattle.sn_device.specs.Disk.{reads};
ghost use Rattle.sn_block.specs.Counts.{CountsRead};
ghost use Rattle.sn_block.specs.Lending.{device_of};
ghost use Rattle.sn_model.specs.declared.change.Change.{Change as TheChange};
ghost use Rattle.sn_log.specs.Positions.{first_of, IsBehind};
ghost use Rattle.sn_log.specs.Replaying.{Finds, Fills, Looks, position_after, changes_in};

use crate::body::{HEAD_SIZE, Head, is_body, sectors_for};
use crate::position::LAST_GATE;
use crate::sectors::{read_sector, read_sectors};
use crate::{Buffer, Position};
use sn_block::{Blocks, ReadFault};
use sn_device::Device;
use sn_layout::{Gate, Geometry, Reader, SECTOR_SIZE};
use sn_model::Change;
use sn_record::{PAYLOAD_MAX, decode};
use std::marker::Model;

/// What is at a position of the log.
pub enum NextRecord<'a> {
    /// The next record of the epoch. Its names and bytes are lent from the buffer.
    Change(Change<'a>),
    /// No further record of the epoch.
    End,
    /// A record that counts and is no change's.
    Misspelt {
        /// The block of its gate.
        block: u32,
    },
}

/// Reads the records of an epoch one after another. Callers see it as the position of the next one.
#[derive(Drop)]
pub struct Replay {
    position: Position,
}

impl Model for Replay {
    ghost use Rattle.sn_log.specs.Positions.{LogPosition};

    ghost Value = { LogPosition };

    ghost view = { λ replay. replay.position };
}

impl Replay {
    /// From the first place of an epoch on.
    pub fn new(geometry: Geometry, epoch: u64) -> Self
        ensures { result ≡ first_of geometry epoch }
    {
        Replay {
            position: Position::first(geometry, epoch),
        }
    }

    /// Where the next record is read, and at the end where appending continues.
    pub fn position(&self) -> Position
        ensures { result ≡ self.now }
    {
        self.position
    }

    /// What is at the position, which then is the one after a change that was found, and else
    /// stays.
    ///
    /// Proved: Replay gives a change where its record is next in the epoch after an open gate, and else says whether the
    /// records end there or one is misspelt.
    pub fn next<'a, D: Device>(
        &mut self,
        blocks: &mut Blocks<D>,
        buffer: &'a mut Buffer,
    ) -> Result<NextRecord<'a>, ReadFault>
        requires disk { 8 * self.old.blocks ≤ (D.status (device_of blocks.old)).sectors }
        ensures found { IsTrue D.tells_bytes → IfOk result
            (λ found. Finds (reads (D.disk (device_of blocks.old))) self.old found) }
        ensures behind { IsTrue D.tells_bytes → (changes : List TheChange)
            → IsBehind self.old changes (reads (D.disk (device_of blocks.old)))
            → IfOk result (λ found. IsBehind self.new (changes ++ changes_in found) (reads (D.disk (device_of blocks.old)))) }
        ensures moves { IfOk result (λ found. self.new ≡ position_after self.old found) }
        ensures stays { OnErr result (self.new ≡ self.old) }
        ensures same { IsTrue D.tells_bytes
            → D.disk (device_of blocks.new) ≡ D.disk (device_of blocks.old) }
        ensures counts { CountsRead result
            (D.status (device_of blocks.old)) (D.status (device_of blocks.new)) }
    {
        let position = self.position;
        let Some(size) = look(blocks, position)? else {
            return Ok(NextRecord::End);
        };
        let is_body = fill(blocks, position, size, &mut buffer.body)?;
        let change = if is_body {
            decode(&buffer.body[HEAD_SIZE..HEAD_SIZE + size as usize])
        } else {
            None
        };
        let Some(change) = change else {
            return Ok(NextRecord::Misspelt {
                block: position.block(),
            });
        };
        self.position = position.behind(sectors_for(size as usize) as u64);
        Ok(NextRecord::Change(change))
    }
}

// The size that the record at a position has by its head, or `None` where replay stops.
fn look<D: Device>(blocks: &mut Blocks<D>, position: Position) -> Result<Option<u32>, ReadFault>
    requires disk { 8 * position.blocks ≤ (D.status (device_of blocks.old)).sectors }
    ensures looks { IsTrue D.tells_bytes → IfOk result
        (λ found. Looks (reads (D.disk (device_of blocks.old))) position found) }
    ensures same { IsTrue D.tells_bytes
        → D.disk (device_of blocks.new) ≡ D.disk (device_of blocks.old) }
    ensures counts { CountsRead result
        (D.status (device_of blocks.old)) (D.status (device_of blocks.new)) }
{
    let start = position.start();
    let place = position.place();
    if place > LAST_GATE {
        return Ok(None);
    }
    let mut sector = [0; 512];
    read_sector(blocks, start, place, &mut sector)?;
    let Gate::Open = Gate::decode(&sector) else {
        return Ok(None);
    };
    read_sector(blocks, start, place + 1, &mut sector)?;
    let head = Head::read(&mut Reader::new(&sector));
    if head.epoch != position.epoch() {
        return Ok(None);
    }
    Ok(Some(head.size))
}

// Whether a body with a payload of this size is at a position, which then is in the room.
fn fill<D: Device>(
    blocks: &mut Blocks<D>,
    position: Position,
    size: u32,
    room: &mut [u8; 66_048],
) -> Result<bool, ReadFault>
    requires disk { 8 * position.blocks ≤ (D.status (device_of blocks.old)).sectors }
    ensures fills { IsTrue D.tells_bytes → IfOk result
        (λ is_body. Fills (reads (D.disk (device_of blocks.old))) position size room.new is_body) }
    ensures fits { IfOk result (λ is_body. IsTrue is_body
        → (size ≤ 65547) × (position.place + (16 + size + 511) / 512 + 1 ≤ 255)) }
    ensures same { IsTrue D.tells_bytes
        → D.disk (device_of blocks.new) ≡ D.disk (device_of blocks.old) }
    ensures counts { CountsRead result
        (D.status (device_of blocks.old)) (D.status (device_of blocks.new)) }
{
    if size == 0 || size > PAYLOAD_MAX as u32 {
        return Ok(false);
    }
    let sectors = sectors_for(size as usize);
    if !position.has_room(sectors as u64) {
        return Ok(false);
    }
    let head = Head {
        epoch: position.epoch(),
        sequence: position.count(),
        size,
    };
    read_sectors(
        blocks,
        position.start(),
        position.place() + 1,
        sectors,
        room,
    )?;
    Ok(is_body(&room[..SECTOR_SIZE * sectors], head))
}
