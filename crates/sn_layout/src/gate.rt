//! | offset | field of a gate's sector |
//! |---|---|
//! | 0 | 1 open, any other byte closed; 0 is written |
//! | 1 | written as zeros, and not read |
ghost use Rattle.std.specs.Prelude.{◌≡◌};

use crate::{SECTOR_SIZE, Sector};
use sn_bytes::{put_u8, put_zeros};

/// Whether what follows a gate counts: a root body, or a record of the log.
///
/// Proved: A gate is open exactly where its first byte is 1.
#[derive(Clone, Copy, PartialEq, Eq, Hash)]
pub enum Gate {
    Open,
    Closed,
}

impl Gate {
    ghost use Rattle.sn_layout.specs.Gate.{gate_of, gate_bytes};

    /// Any sector is a gate.
    pub fn decode(sector: &Sector) -> Self
        ensures { result ≡ gate_of sector.now }
    {
        if sector[0] == 1 {
            Gate::Open
        } else {
            Gate::Closed
        }
    }

    /// Writes the whole sector, whatever was there.
    pub fn encode(self, sector: &mut Sector)
        ensures bytes { sector.new ≡ gate_bytes self }
        ensures read { gate_of sector.new ≡ self }
    {
        let at = put_u8(sector, 0, u8::from(self == Gate::Open));
        put_zeros(sector, at, SECTOR_SIZE - 1);
    }
}
