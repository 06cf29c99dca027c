//! Appending.
ghost use Rattle.std.specs.Prelude.{◌≡◌, ◌+◌, ◌*◌, ◌/◌, ◌%◌, ◌≤◌, ◌<◌, ◌↔◌, IsTrue, OnOk, OnErr};
ghost use Rattle.sn_block.specs.Counts.{CountsCalls};
ghost use Rattle.sn_block.specs.Lending.{device_of};
ghost use Rattle.sn_ondisk.specs.LogHalf.{body_sectors};
ghost use Rattle.sn_record.specs.Payload.{payload_bytes};
ghost use Rattle.sn_log.specs.Positions.{first_of, behind, HasRoom};
ghost use Rattle.sn_log.specs.Appending.{Appends};

use crate::appending::append_at;
use crate::body::sectors_for;
use crate::{Buffer, Position};
use sn_block::Blocks;
use sn_device::{Device, Fault};
use sn_record::Payload;
use std::marker::Model;

/// The log of a mounted disk, to which changes are appended. Callers see it as the position where the
/// next record goes.
#[derive(Drop)]
pub struct Log {
    position: Position,
    buffer: Buffer,
}

impl Model for Log {
    ghost use Rattle.sn_log.specs.Positions.{LogPosition};

    ghost Value = { LogPosition };

    ghost view = { λ log. log.position };
}

impl Log {
    /// Appending continues at this position.
    pub fn new(position: Position, buffer: Buffer) -> Self
        ensures { result ≡ position }
    {
        Log { position, buffer }
    }

    /// Where the next record goes.
    pub fn position(&self) -> Position
        ensures { result ≡ self.now }
    {
        self.position
    }

    /// Whether there is room for the record of a change. Where there isn't, a consistency point has to
    /// come first.
    ///
    /// Proved: The test is exact whether a record has room.
    pub fn has_room(&self, payload: &Payload<'_>) -> bool
        ensures { IsTrue result ↔ HasRoom self.now payload.now }
    {
        self.position.has_room(sectors_for(payload.size()) as u64)
    }

    /// Appends the record of a change. It takes no memory. After a fault the position is as it was,
    /// and what is there isn't known, so that nothing may be appended before the next mount.
    ///
    /// Proved: Where each crash left the records of some changes, a crash at any moment of an append leaves them or them
    /// with the new one, and after its success the new one too.
    /// Proved: No sector outside the half is touched, and a record of n sectors takes n + 2 writes and 2 syncs, and no
    /// memory; its gate and the next one are whole sectors, with zeros after the first byte.
    pub fn append<D: Device>(
        &mut self,
        blocks: &mut Blocks<D>,
        payload: &Payload<'_>,
    ) -> Result<(), Fault>
        requires room { HasRoom self.old payload.now }
        requires disk { 8 * self.old.blocks ≤ (D.status (device_of blocks.old)).sectors }
        ensures disk { IsTrue D.tells_bytes → Appends self.old payload.now result
            (D.disk (device_of blocks.old)) (D.disk (device_of blocks.new)) }
        ensures counts { CountsCalls (body_sectors (payload_bytes payload.now) + 2) 2 result
            (D.status (device_of blocks.old)) (D.status (device_of blocks.new)) }
        ensures moves { OnOk result (self.new ≡ behind self.old payload.now) }
        ensures stays { OnErr result (self.new ≡ self.old) }
    {
        let sectors = append_at(blocks, self.position, &mut self.buffer.body, payload)?;
        self.position = self.position.behind(sectors);
        Ok(())
    }

    /// Goes on at the first place of an epoch. It touches no device.
    ///
    /// Proved: Going to another epoch touches no device.
    pub fn go_to_epoch(&mut self, epoch: u64)
        ensures { self.new ≡ first_of self.old.blocks epoch }
    {
        self.position = self.position.at_epoch(epoch);
    }
}
