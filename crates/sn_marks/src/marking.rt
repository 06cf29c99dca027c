//! Marking the block of one pointer.
ghost use Rattle.std.specs.Prelude.{◌≡◌, ◌≢◌, ◌<◌, length, Err, IfErr, OnErr, OnOk};
ghost use Rattle.sn_block.specs.declared.fault.ReadFault.{ReadFault as TheFault};
ghost use Rattle.sn_image.specs.Reach.{block_reach};
ghost use Rattle.sn_marks.specs.Marks.{Marks, IsAstray};
ghost use Rattle.sn_marks.specs.Fault.{Tells};
ghost use Rattle.sn_marks.specs.declared.fault.CheckFault.TheVariants.{Read};

use crate::CheckFault;
use sn_layout::Geometry;
use sn_map::Map;
use sn_model::Damage;

/// The bit that a root has in the words of a map, on a disk with its areas at these places.
#[derive(Clone, Copy)]
pub struct RootBit {
    pub geometry: Geometry,
    pub bit: u32,
    ghost in_word: { bit < 32 },
}

/// Marks the block of a pointer. A pointer 0 names none. One that leads out of the data area is the fault
/// `Pointer`, and one to a block that is marked already `ReachedTwice`; both are reported at its block, and
/// leave the map as it was.
///
/// Proved: The block of a pointer is marked, and a pointer 0 marks none; a pointer out of the data area, or to a block whose
/// bit is set, is reported as that at its block, and leaves the map as it was.
pub fn mark(map: &mut Map, root: &RootBit, pointer: u32) -> Result<(), CheckFault>
    requires { length map.old ≡ root.now.geometry }
    ensures marks { OnOk result (Marks root.now.geometry root.now.bit (block_reach pointer) map.old map.new) }
    ensures fault { IfErr result (λ fault. Tells fault (IsAstray root.now.geometry root.now.bit (block_reach pointer) map.old)) }
    ensures read { (fault : TheFault) → result ≢ Err (Read fault) }
    ensures err { OnErr result (map.new ≡ map.old) }
    ensures words { length map.new ≡ length map.old }
{
    if pointer == 0 {
        return Ok(());
    }
    if !root.geometry.is_data(pointer) {
        return Err(CheckFault::Damaged {
            damage: Damage::Pointer,
            block: pointer,
        });
    }
    if map.has_bit(pointer, root.bit) {
        return Err(CheckFault::Damaged {
            damage: Damage::ReachedTwice,
            block: pointer,
        });
    }
    map.set_bit(pointer, root.bit);
    Ok(())
}
