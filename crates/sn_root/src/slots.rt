//! What each of the two slots holds.
ghost use Rattle.std.specs.Prelude.{◌≡◌, ◌+◌, ◌*◌, ◌<◌, ◌≤◌, take, drop, IsTrue, IfOk};
ghost use Rattle.sn_device.specs.Disk.{reads};
ghost use Rattle.sn_layout.specs.declared.geometry.Slot.TheVariants.{A as SlotA, B as SlotB};
ghost use Rattle.sn_ondisk.specs.Roots.{body_block as block_of_body};
ghost use Rattle.sn_block.specs.Lending.{device_of};
ghost use Rattle.sn_block.specs.Counts.{CountsRead};
ghost use Rattle.sn_root.specs.Slots.{gate_in};
ghost use Rattle.sn_root.specs.Carried.{Spells, Holds, Fits};

use crate::fault::GATES_BLOCK;
use sn_block::{Block, Blocks, ReadFault};
use sn_device::{Device, SECTOR_SIZE, Sector};
use sn_layout::{Gate, RootBody, Slot};
use sn_limits::Limits;

/// The block of a slot's root body.
pub(crate) fn body_block(slot: Slot) -> u32
    ensures value { result ≡ block_of_body slot }
    ensures low { result ≤ 2 }
{
    match slot {
        Slot::A => 1,
        Slot::B => 2,
    }
}

/// What a slot holds, as far as it counts.
#[derive(Drop)]
pub(crate) enum Carried {
    /// Its gate is closed, and its body isn't looked at.
    Nothing,
    /// A body of a version that isn't read.
    UnknownVersion,
    /// No body.
    Misspelt,
    Root(RootBody),
}

impl Carried {
    // What the block of an open slot holds.
    fn of_block(block: &Block) -> Self
        ensures spells { Spells block.now result }
        ensures fits { Fits result }
    {
        if Limits::of_version(RootBody::version(block)).is_none() {
            return Carried::UnknownVersion;
        }
        match RootBody::decode(block) {
            Some(root) => Carried::Root(root),
            None => Carried::Misspelt,
        }
    }
}

// A sector of a block.
fn sector_of(block: &Block, i: usize) -> Sector
    requires { i < 8 }
    ensures { result ≡ take 512 (drop (512 * i) block.now) }
{
    let mut sector = [0; 512];
    sector.copy_from_slice(&block[SECTOR_SIZE * i..SECTOR_SIZE * i + SECTOR_SIZE]);
    sector
}

/// The gates of both slots.
pub(crate) fn read_gates<D: Device>(blocks: &mut Blocks<D>) -> Result<(Gate, Gate), ReadFault>
    requires room { 32 ≤ (D.status (device_of blocks.old)).sectors }
    ensures gates { IsTrue D.tells_bytes → IfOk result (λ gates.
        (gate_in (reads (D.disk (device_of blocks.old))) SlotA ≡ gates.0)
        × (gate_in (reads (D.disk (device_of blocks.old))) SlotB ≡ gates.1)) }
    ensures same { IsTrue D.tells_bytes → D.disk (device_of blocks.new) ≡ D.disk (device_of blocks.old) }
    ensures counts { CountsRead result (D.status (device_of blocks.old)) (D.status (device_of blocks.new)) }
{
    let block = blocks.read_block(GATES_BLOCK)?;
    let gate_a = Gate::decode(&sector_of(block, 0));
    let gate_b = Gate::decode(&sector_of(block, 1));
    Ok((gate_a, gate_b))
}

/// The gate of a slot. It reads the block of the two gates.
pub fn read_gate<D: Device>(blocks: &mut Blocks<D>, slot: Slot) -> Result<Gate, ReadFault>
    requires room { 32 ≤ (D.status (device_of blocks.old)).sectors }
    ensures gate { IsTrue D.tells_bytes → IfOk result (λ gate. gate_in (reads (D.disk (device_of blocks.old))) slot ≡ gate) }
    ensures same { IsTrue D.tells_bytes → D.disk (device_of blocks.new) ≡ D.disk (device_of blocks.old) }
    ensures counts { CountsRead result (D.status (device_of blocks.old)) (D.status (device_of blocks.new)) }
{
    let (gate_a, gate_b) = read_gates(blocks)?;
    match slot {
        Slot::A => Ok(gate_a),
        Slot::B => Ok(gate_b),
    }
}

/// What a slot holds whose gate is this one. After a closed one nothing is read.
pub(crate) fn look<D: Device>(
    blocks: &mut Blocks<D>,
    slot: Slot,
    gate: Gate,
) -> Result<Carried, ReadFault>
    requires room { 32 ≤ (D.status (device_of blocks.old)).sectors }
    ensures held { IsTrue D.tells_bytes → gate_in (reads (D.disk (device_of blocks.old))) slot ≡ gate
        → IfOk result (λ held. Holds (reads (D.disk (device_of blocks.old))) slot held) }
    ensures fits { IfOk result Fits }
    ensures same { IsTrue D.tells_bytes → D.disk (device_of blocks.new) ≡ D.disk (device_of blocks.old) }
    ensures counts { CountsRead result (D.status (device_of blocks.old)) (D.status (device_of blocks.new)) }
{
    match gate {
        Gate::Closed => Ok(Carried::Nothing),
        Gate::Open => {
            let block = blocks.read_block(body_block(slot))?;
            Ok(Carried::of_block(block))
        }
    }
}
