//! Numbers and bytes, from the front of a payload or a body.

use crate::payload::Misspelling;

/// What is left of some bytes, and the first thing that they lacked: once they lack something, what is read
/// from them means nothing, and `finish` tells.
#[derive(Clone, Copy)]
pub(crate) struct Fields<'a> {
    rest: &'a [u8],
    lacked: Option<Misspelling>,
}

impl<'a> Fields<'a> {
    /// All of these bytes, of which nothing is lacking yet.
    pub fn new(rest: &'a [u8]) -> Self {
        Fields { rest, lacked: None }
    }

    /// The bytes behind what was read.
    pub fn rest(&self) -> &'a [u8] {
        self.rest
    }

    /// What the bytes lacked first, if they lacked anything.
    pub fn finish(&self) -> Result<(), Misspelling> {
        match self.lacked {
            Some(misspelling) => Err(misspelling),
            None => Ok(()),
        }
    }

    /// A test of what was read.
    pub fn test(&mut self, holds: bool, misspelling: Misspelling) {
        if !holds {
            self.lacked = self.lacked.or(Some(misspelling));
        }
    }

    /// The next bytes, as many as are asked for. Where fewer are left, none is read and `CutOff` is noted.
    pub fn bytes(&mut self, count: usize) -> &'a [u8] {
        match self.rest.split_at_checked(count) {
            Some((front, rest)) => {
                self.rest = rest;
                front
            }
            None => {
                self.test(false, Misspelling::CutOff);
                &[]
            }
        }
    }

    fn array<const N: usize>(&mut self) -> [u8; N] {
        match self.rest.split_first_chunk::<N>() {
            Some((front, rest)) => {
                self.rest = rest;
                *front
            }
            None => {
                self.test(false, Misspelling::CutOff);
                [0; N]
            }
        }
    }

    /// The next byte, or 0 where there is none, which is noted.
    pub fn read_u8(&mut self) -> u8 {
        let [byte] = self.array::<1>();
        byte
    }

    /// The next number of two bytes, the least one first, or 0 where fewer are left, which is noted.
    pub fn read_u16(&mut self) -> u16 {
        u16::from_le_bytes(self.array::<2>())
    }

    /// The same of four bytes.
    pub fn read_u32(&mut self) -> u32 {
        u32::from_le_bytes(self.array::<4>())
    }

    /// The same of eight bytes.
    pub fn read_u64(&mut self) -> u64 {
        u64::from_le_bytes(self.array::<8>())
    }
}
