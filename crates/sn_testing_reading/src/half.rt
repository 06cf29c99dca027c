//! The gates and bodies of a half of the log.

use crate::fields::Fields;
use crate::payload::Misspelling;

const SECTOR: usize = 512;

/// The last place of a gate that can have a body.
const LAST_GATE: usize = 253;

/// The bytes of a body before its payload.
const HEAD: usize = 16;

/// The bytes of the longest payload.
const LONGEST: usize = 65_547;

/// Why no record stands at a place.
#[derive(Clone, Copy, PartialEq, Eq)]
pub enum Ending {
    /// The gate there is closed.
    Closed,
    /// No gate there can have a body.
    Last,
    /// The body behind it is of another epoch.
    OtherEpoch,
    /// It is the first, and the body behind it of an epoch after the next, which is a damage.
    LaterEpoch,
    /// The body behind it is of the epoch, and no record.
    Misspelt(Misspelling),
}

impl From<Misspelling> for Ending {
    fn from(misspelling: Misspelling) -> Ending {
        Ending::Misspelt(misspelling)
    }
}

/// The records of an epoch in a half, one after the other.
#[derive(Drop)]
pub struct Records<'a> {
    half: &'a [u8],
    epoch: u64,
    place: usize,
    count: u32,
}

impl<'a> Records<'a> {
    /// Those in the 256 sectors of a half.
    pub fn new(half: &'a [u8], epoch: u64) -> Self {
        Records {
            half,
            epoch,
            place: 0,
            count: 0,
        }
    }

    /// The place of the next gate.
    pub fn place(&self) -> usize {
        self.place
    }

    /// The payload of the next record. Where there is none, the place stays.
    pub fn read_next(&mut self) -> Result<&'a [u8], Ending> {
        let payload = self.payload()?;
        self.place = self
            .place
            .saturating_add(sectors_of(payload.len()))
            .saturating_add(1);
        self.count = self.count.saturating_add(1);
        Ok(payload)
    }

    fn payload(&self) -> Result<&'a [u8], Ending> {
        if self.place > LAST_GATE {
            return Err(Ending::Last);
        }
        let gate = SECTOR * self.place;
        if !matches!(self.half.get(gate), Some(&1)) {
            return Err(Ending::Closed);
        }
        let Some((_, body)) = self.half.split_at_checked(gate + SECTOR) else {
            return Err(Ending::Last);
        };
        let mut fields = Fields::new(body);
        let epoch = fields.read_u64();
        fields.finish()?;
        if epoch != self.epoch {
            return Err(self.ending_by(epoch));
        }
        let payload = self.payload_of(&mut fields);
        fields.finish()?;
        Ok(payload)
    }

    /// The end that a body of another epoch makes.
    fn ending_by(&self, epoch: u64) -> Ending {
        if self.place == 0 && epoch > self.epoch.saturating_add(1) {
            Ending::LaterEpoch
        } else {
            Ending::OtherEpoch
        }
    }

    /// The payload of a body, whose epoch was read.
    fn payload_of(&self, fields: &mut Fields<'a>) -> &'a [u8] {
        let sequence = fields.read_u32();
        let size = fields.read_u32() as usize;
        fields.test(sequence == self.count, Misspelling::Sequence);
        fields.test(size != 0, Misspelling::NoPayload);
        fields.test(size <= LONGEST, Misspelling::LongPayload);
        let sectors = sectors_of(size);
        let end = self.place.saturating_add(sectors);
        fields.test(end <= LAST_GATE + 1, Misspelling::NoRoom);
        let payload = fields.bytes(size);
        let padding = fields.bytes(SECTOR.saturating_mul(sectors).saturating_sub(HEAD + size));
        fields.test(are_zeros(padding), Misspelling::Padding);
        payload
    }
}

fn are_zeros(bytes: &[u8]) -> bool {
    bytes.iter().all(|byte| *byte == 0)
}

/// The sectors of a body whose payload has so many bytes, which are no more than the longest's.
fn sectors_of(size: usize) -> usize {
    (HEAD + size.min(LONGEST) + SECTOR - 1) / SECTOR
}
