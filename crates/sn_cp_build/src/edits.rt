//! What becomes of the bits of snapshots.
ghost use Rattle.std.specs.Prelude.{◌≡◌, ◌≤◌, ◌↔◌, IsSome, IfSome};
ghost use Rattle.sn_cp_build.specs.Edits.{EditsBits, TakesBase};

use sn_map::Map;
use std::marker::Model;

/// The bit of a snapshot in each word of the map, from 1 to 31: any but that of the live tree. How many of them a root
/// may use is a matter of its version.
#[derive(Clone, Copy, PartialEq, Eq)]
pub struct SnapshotBit {
    number: u8,
}

impl Model for SnapshotBit {
    ghost use Rattle.std.specs.Prelude.{ℕ, ◌≤◌};

    ghost Value = { ℕ };

    ghost view = { λ bit. bit.number };

    ghost invariant = { λ bit. (1 ≤ bit.number) × (bit.number ≤ 31) };

    ghost inverse = { λ n. record { number = n } };
}

impl SnapshotBit {
    /// `None` for 0, which is the live tree's, and for what is no bit of a word.
    ///
    /// Proved: A bit of a snapshot is from 1 to 31, by its type.
    pub fn new(number: u8) -> Option<Self>
        ensures valid { IsSome result ↔ (1 ≤ number) × (number ≤ 31) }
        ensures value { IfSome result (λ bit. bit ≡ number) }
    {
        if number >= 1 && number <= 31 {
            Some(SnapshotBit { number })
        } else {
            None
        }
    }

    /// Which bit it is.
    pub fn number(self) -> u8
        ensures value { result ≡ self }
        ensures from_one { 1 ≤ self }
        ensures within { self ≤ 31 }
    {
        self.number
    }
}

/// What a build does to the bits of snapshots, and from which of them it begins.
#[derive(Clone, Copy, PartialEq, Eq)]
pub enum SnapshotEdit {
    /// Nothing: each snapshot keeps what it reaches.
    None,
    /// A snapshot of the new tree is made: once bit 0 marks that tree, its bit becomes what bit 0 is, in each word.
    Freeze(SnapshotBit),
    /// A snapshot goes: its bit is cleared in each word, and what nothing else reaches is free from this map on.
    Thaw(SnapshotBit),
    /// A snapshot is brought back: the build is over its tree, and before anything else bit 0 becomes what its bit is, in each
    /// word. The snapshot keeps what it reaches, and what the live tree alone reached is free from this map on.
    Restore(SnapshotBit),
}

impl SnapshotEdit {
    // The bits of snapshots stay.
    pub(crate) fn take_base(&self, map: &mut Map)
        ensures { TakesBase self.now map.old map.new }
    {
        match self {
            SnapshotEdit::None | SnapshotEdit::Freeze(_) | SnapshotEdit::Thaw(_) => {}
            SnapshotEdit::Restore(bit) => map.copy_bit_to_0(u32::from(bit.number())),
        }
    }

    // Bit 0 stays, as do the bits of other snapshots.
    pub(crate) fn apply(self, map: &mut Map)
        ensures { EditsBits self map.old map.new }
    {
        match self {
            SnapshotEdit::None | SnapshotEdit::Restore(_) => {}
            SnapshotEdit::Freeze(bit) => map.copy_bit0_to(u32::from(bit.number())),
            SnapshotEdit::Thaw(bit) => map.clear_bit(u32::from(bit.number())),
        }
    }
}
