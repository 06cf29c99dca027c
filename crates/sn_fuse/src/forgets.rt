//! What a BATCH_FORGET lists.
ghost use Rattle.std.specs.Prelude.{◌≡◌, ◌*◌, ◌↔◌, ℕ, List, [], length, slice_get, IsTrue};

use byteorder::{ByteOrder, LittleEndian};
use std::marker::Model;

/// A node of which so many look-ups are forgotten.
#[derive(Clone, Copy, PartialEq, Eq, Debug)]
pub struct Forget {
    pub node: u64,
    pub lookups: u64,
}

// How many bytes one has.
const FORGET_SIZE: usize = 16;

/// Nodes of which look-ups are forgotten, lent from a message. Seen as the list of them.
#[derive(Drop)]
pub struct Forgets<'a> {
    count: usize,
    bytes: &'a [u8],
}

impl<'a> Model for Forgets<'a> {
    ghost use Rattle.std.specs.Prelude.{◌≡◌, ◌*◌, List, length};
    ghost use Rattle.sn_fuse.specs.Forgets.{forgets_in};
    ghost use Rattle.sn_fuse.specs.declared.forgets.Forget.{Forget as TheForget};

    ghost Value = { List TheForget };

    ghost view = { λ f. forgets_in f.count f.bytes.now };

    ghost invariant = { λ f. length f.bytes.now ≡ 16 * f.count };
}

impl<'a> Forgets<'a> {
    ghost use Rattle.sn_fuse.specs.Forgets.{forgets_in};

    // So many of them, which are all of the bytes.
    pub(crate) fn new(count: usize, bytes: &'a [u8]) -> Self
        requires { length bytes.now ≡ 16 * count }
        ensures { result ≡ forgets_in count bytes.now }
    {
        Forgets { count, bytes }
    }

    /// How many there are.
    pub fn len(&self) -> usize
        ensures { result ≡ length self.now }
    {
        self.count
    }

    /// Whether there are none.
    pub fn is_empty(&self) -> bool
        ensures { IsTrue result ↔ (self.now ≡ []) }
    {
        self.count == 0
    }

    /// That at an index, from 0 on; `None` past the last.
    ///
    /// Proved: The nodes of a BATCH_FORGET are those that its bytes list, in their order.
    pub fn get(&self, index: usize) -> Option<Forget>
        ensures { result ≡ slice_get self.now index }
    {
        if index >= self.count {
            return None;
        }
        let at = FORGET_SIZE * index;
        Some(Forget {
            node: LittleEndian::read_u64(&self.bytes[at..]),
            lookups: LittleEndian::read_u64(&self.bytes[at + 8..]),
        })
    }
}
