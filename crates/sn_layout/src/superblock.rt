//! | offset | field |
//! |---|---|
//! | 0 | `SNAPFSYS` |
//! | 8 | number of blocks u32 |
//! | 12 | zeros |
ghost use Rattle.std.specs.Prelude.{◌≡◌, Some, IfSome};

use crate::{Block, Geometry};
use sn_bytes::{Reader, put_bytes, put_u32, put_zeros};

const MAGIC: [u8; 8] = *b"SNAPFSYS";

/// What the first block says of its disk.
///
/// Proved, also of `RootBody`, `Gate`, `read_map_words` and `put_map_words`: Superblock, root body, snapshot names, block
/// trees, gates and the blocks of a map copy are encoded to their one spelling, and decoded exactly from it.
#[derive(Clone, Copy, PartialEq, Eq)]
pub struct Superblock {
    pub geometry: Geometry,
}

impl Superblock {
    ghost use Rattle.sn_layout.specs.Superblock.{superblock_bytes};
    ghost use Rattle.sn_layout.specs.Geometry.{IsDiskSize};
    ghost use Rattle.sn_layout.specs.declared.superblock.Superblock.{Superblock as TheSuperblock};

    /// Makes the block the spelling of this superblock: all its 4,096 bytes are written.
    pub fn encode(&self, block: &mut Block)
        ensures { block.new ≡ superblock_bytes self.now }
    {
        let at = put_bytes(block, 0, &MAGIC);
        let at = put_u32(block, at, self.geometry.blocks());
        put_zeros(block, at, 4084);
    }

    /// The superblock that the block spells.
    pub fn decode(block: &Block) -> Option<Self>
        ensures found { IfSome result (λ superblock. IsDiskSize superblock.geometry × (block.now ≡ superblock_bytes superblock)) }
        ensures only { (superblock : TheSuperblock) → IsDiskSize superblock.geometry → block.now ≡ superblock_bytes superblock → result ≡ Some superblock }
    {
        let mut reader = Reader::new(block);
        if !reader.are(&MAGIC) {
            return None;
        }
        let geometry = Geometry::new(reader.u32())?;
        if !reader.are_zeros(4084) {
            return None;
        }
        Some(Superblock { geometry })
    }
}
