//! Replacing the root that isn't newest.
ghost use Rattle.std.specs.Prelude.{◌≡◌, ◌+◌, ◌≤◌, IsTrue};
ghost use Rattle.sn_device.specs.Disk.{Always};
ghost use Rattle.sn_layout.specs.RootBody.{IsRootBody};
ghost use Rattle.sn_layout.specs.Geometry.{gate_sector};
ghost use Rattle.sn_layout.specs.declared.root.RootBody.{RootBody as TheRootBody};
ghost use Rattle.sn_ondisk.specs.Gates.{IsClosed};
ghost use Rattle.sn_ondisk.specs.Roots.{HasRoot};
ghost use Rattle.sn_block.specs.Counts.{CountsCalls};
ghost use Rattle.sn_block.specs.Effects.{WritesSynced};
ghost use Rattle.sn_block.specs.Lending.{device_of};
ghost use Rattle.sn_layout.specs.Gate.{gate_bytes};
ghost use Rattle.sn_root.specs.Slots.{gate_in};
ghost use Rattle.sn_root.specs.Replacing.{closing_writes, ClosesSlot, WritesBody, OpensSlot, KeepsRoot, ChangesRoot, ReplacesSlot};

use crate::slots::body_block;
use sn_block::Blocks;
use sn_device::{Device, Fault};
use sn_layout::{BLOCK_SIZE, Gate, Geometry, RootBody, SECTOR_SIZE, Slot};

/// Closes the gate of the slot that is to be replaced, where it is open, and syncs. A gate that is closed
/// is left alone: after it there may be a whole body that never counted, and a torn write might open it.
///
/// Proved, also of `write_body`: The root in the other slot is replaced in three parts, each synced, and whatever a crash
/// tears, closing and the body leave the old root with its log records.
/// Proved, also of `write_body`, `open_slot` and `replace`: A closed gate isn't written again, and each part touches the
/// sectors that it names and no others, with so many writes and syncs.
pub fn close_slot<D: Device>(blocks: &mut Blocks<D>, slot: Slot, gate: Gate) -> Result<(), Fault>
    requires room { 32 ≤ (D.status (device_of blocks.old)).sectors }
    requires gate { IsTrue D.tells_bytes
        → Always (D.disk (device_of blocks.old)) (λ c. gate_in c slot ≡ gate) }
    ensures bytes { IsTrue D.tells_bytes → ClosesSlot slot gate result
        (D.disk (device_of blocks.old)) (D.disk (device_of blocks.new)) }
    ensures root { IsTrue D.tells_bytes
        → KeepsRoot slot (D.disk (device_of blocks.old)) (D.disk (device_of blocks.new)) }
    ensures counts { CountsCalls (closing_writes gate) 1 result
        (D.status (device_of blocks.old)) (D.status (device_of blocks.new)) }
{
    match gate {
        Gate::Open => write_gate(blocks, slot, Gate::Closed),
        Gate::Closed => blocks.sync(),
    }
}

/// Writes the body of the next root after the closed gate, and syncs.
pub fn write_body<D: Device>(
    blocks: &mut Blocks<D>,
    slot: Slot,
    next: &RootBody,
) -> Result<(), Fault>
    requires room { 32 ≤ (D.status (device_of blocks.old)).sectors }
    requires fits { IsRootBody next.now }
    requires closed { IsTrue D.tells_bytes
        → Always (D.disk (device_of blocks.old)) (λ c. IsClosed c (gate_sector slot)) }
    ensures bytes { IsTrue D.tells_bytes → WritesBody slot next.now result
        (D.disk (device_of blocks.old)) (D.disk (device_of blocks.new)) }
    ensures root { IsTrue D.tells_bytes
        → KeepsRoot slot (D.disk (device_of blocks.old)) (D.disk (device_of blocks.new)) }
    ensures counts { CountsCalls 8 1 result
        (D.status (device_of blocks.old)) (D.status (device_of blocks.new)) }
{
    let mut block = [0; BLOCK_SIZE];
    next.encode(&mut block);
    blocks.write_block(body_block(slot), &block)?;
    blocks.sync()
}

/// Opens the gate before the body of the next root, and syncs. From then on that root counts, if its
/// generation is the greater.
///
/// Proved: Opening leaves the old or the next root with the records of its own epochs, and after `Ok` the next.
pub fn open_slot<D: Device>(blocks: &mut Blocks<D>, slot: Slot) -> Result<(), Fault>
    requires room { 32 ≤ (D.status (device_of blocks.old)).sectors }
    requires closed { IsTrue D.tells_bytes
        → Always (D.disk (device_of blocks.old)) (λ c. IsClosed c (gate_sector slot)) }
    requires body { IsTrue D.tells_bytes → (next : TheRootBody)
        × Always (D.disk (device_of blocks.old)) (λ c. HasRoot c slot next) }
    ensures bytes { IsTrue D.tells_bytes → OpensSlot slot result
        (D.disk (device_of blocks.old)) (D.disk (device_of blocks.new)) }
    ensures root { IsTrue D.tells_bytes → (next : TheRootBody)
        → Always (D.disk (device_of blocks.old)) (λ c. HasRoot c slot next)
        → ChangesRoot slot next result (D.disk (device_of blocks.old)) (D.disk (device_of blocks.new)) }
    ensures counts { CountsCalls 1 1 result
        (D.status (device_of blocks.old)) (D.status (device_of blocks.new)) }
{
    write_gate(blocks, slot, Gate::Open)
}

/// Replaces the root of a slot by the next one: the three parts in a row.
pub fn replace<D: Device>(
    blocks: &mut Blocks<D>,
    slot: Slot,
    gate: Gate,
    next: &RootBody,
) -> Result<(), Fault>
    requires room { 32 ≤ (D.status (device_of blocks.old)).sectors }
    requires fits { IsRootBody next.now }
    requires gate { IsTrue D.tells_bytes
        → Always (D.disk (device_of blocks.old)) (λ c. gate_in c slot ≡ gate) }
    ensures bytes { IsTrue D.tells_bytes → ReplacesSlot slot next.now result
        (D.disk (device_of blocks.old)) (D.disk (device_of blocks.new)) }
    ensures root { IsTrue D.tells_bytes → ChangesRoot slot next.now result
        (D.disk (device_of blocks.old)) (D.disk (device_of blocks.new)) }
    ensures counts { CountsCalls (closing_writes gate + 9) 3 result
        (D.status (device_of blocks.old)) (D.status (device_of blocks.new)) }
{
    close_slot(blocks, slot, gate)?;
    write_body(blocks, slot, next)?;
    open_slot(blocks, slot)
}

// Writes a gate, and syncs.
fn write_gate<D: Device>(blocks: &mut Blocks<D>, slot: Slot, gate: Gate) -> Result<(), Fault>
    requires room { 32 ≤ (D.status (device_of blocks.old)).sectors }
    ensures disk { IsTrue D.tells_bytes → WritesSynced (gate_sector slot) (gate_bytes gate) result
        (D.disk (device_of blocks.old)) (D.disk (device_of blocks.new)) }
    ensures counts { CountsCalls 1 1 result
        (D.status (device_of blocks.old)) (D.status (device_of blocks.new)) }
{
    let mut sector = [0; SECTOR_SIZE];
    gate.encode(&mut sector);
    blocks.write_synced(Geometry::gate(slot), &sector)
}
