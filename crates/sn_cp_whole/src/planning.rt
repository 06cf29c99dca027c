//! What a point is to write.
ghost use Rattle.std.specs.Prelude.{◌≡◌, ◌*◌, ◌≤◌, ◌↔◌, length, All, Err, None, IsTrue, IfErr, IfOk, IfSome, OnOk};
ghost use Rattle.sn_device.specs.Disk.{reads};
ghost use Rattle.sn_block.specs.Lending.{device_of};
ghost use Rattle.sn_layout.specs.Bytes.{AreNumbers};
ghost use Rattle.sn_layout.specs.Geometry.{other_slot};
ghost use Rattle.sn_layout.specs.RootBody.{IsRootBody};
ghost use Rattle.sn_limits.specs.Versions.{limits_written};
ghost use Rattle.sn_ondisk.specs.Trees.{store_of};
ghost use Rattle.sn_overlay.specs.Overlays.{HasRoom, layer_of, no_changes};
ghost use Rattle.sn_root.specs.Following.{following};
ghost use Rattle.sn_root.specs.Slots.{gate_in};
ghost use Rattle.sn_cp_held.specs.Builds.{LeavesAge};
ghost use Rattle.sn_cp_whole.specs.Asking.{CanBeMade};
ghost use Rattle.sn_cp_whole.specs.declared.fault.PointFault.TheVariants.{Age as AgePoint, Damaged as DamagedPoint};
ghost use Rattle.sn_cp_whole.specs.Planning.{CanBeBuiltFor, HasAgeFor, HasCauseToStop, IsPlanned, IsSpellable, IsWholeBlock, kept_in, point_fault_of, read_fault_of};

use crate::asking::{Start, bit_in, start_for, with_snapshots};
use crate::{PointBase, PointFault};
use sn_block::{Blocks, ReadFault};
use sn_cp_build::{Built, build};
use sn_device::Device;
use sn_layout::{Area, Block, Gate, Geometry, LARGEST_AGE, LogHalf, RootBody, Slot};
use sn_limits::Limits;
use sn_model::AskedPoint;
use sn_overlay::Overlay;
use sn_root::{PointKind, next_root, read_gate};
use sn_tree::{NewBlock, PlanFault};
use sn_tree_read::TreeFault;
use std::alloc::Global;

/// All that is read and built for a point before it begins: the root that follows, what was built for it, and the gate of
/// the slot that is replaced.
#[derive(Drop)]
pub(crate) struct Planned {
    pub next: RootBody,
    pub built: Built,
    pub gate: Gate,
}

/// Whether the root that a point of this kind leaves has an age left, where it needs one.
fn leaves_age(kind: PointKind, next: &RootBody) -> bool
    ensures { IsTrue result ↔ LeavesAge kind next.now }
{
    match kind {
        PointKind::Ordinary => next.generation < LARGEST_AGE && next.epoch <= LARGEST_AGE - 2,
        PointKind::Recovery => true,
    }
}

/// The root that follows on this one by a point of this kind, under the written limits, where it has an age, and leaves one.
fn following_root(root: &RootBody, kind: PointKind) -> Option<RootBody>
    requires body { IsRootBody root.now }
    ensures is { IfSome result (λ next. next ≡ following kind limits_written root.now) }
    ensures body { IfSome result IsRootBody }
    ensures age { IfSome result (LeavesAge kind) }
    ensures none { result ≡ None → HasAgeFor kind root.now → ⊥ }
{
    let next = next_root(root, &Limits::WRITTEN, kind)?;
    if leaves_age(kind, &next) {
        Some(next)
    } else {
        None
    }
}

fn read_fault(fault: ReadFault) -> PointFault
    ensures { result ≡ read_fault_of fault }
{
    match fault {
        ReadFault::Memory => PointFault::Memory,
        ReadFault::Device => PointFault::Read,
    }
}

fn plan_fault(fault: PlanFault) -> PointFault
    ensures { result ≡ point_fault_of fault }
{
    match fault {
        PlanFault::Memory => PointFault::Memory,
        PlanFault::Tree(TreeFault::Read(fault)) => read_fault(fault),
        PlanFault::Tree(TreeFault::Damaged { .. }) | PlanFault::Full => PointFault::Damaged,
    }
}

/// Each word is one of four bytes, by its type.
fn words_fit(words: &[u32])
    ensures { AreNumbers 4 words.now }
{
    words.len();
}

/// A block is a whole one, by its type.
fn block_fits(bytes: &Block)
    ensures { length bytes.now ≡ 4096 }
{
    bytes.as_slice();
}

/// And so is each of these.
fn blocks_fit(blocks: &[NewBlock])
    ensures { All IsWholeBlock blocks.now }
{
    for block in blocks {
        block_fits(&block.bytes);
    }
}

/// The root with another inode file.
fn with_inode_file(root: RootBody, built: &Built) -> RootBody
    requires { IsRootBody root }
    ensures is { result ≡ record root { inode_file = built.now.inode_file } }
    ensures body { IsRootBody result }
{
    let inode_file = built.inode_file;
    inode_file.fits();
    RootBody { inode_file, ..root }
}

/// Builds the live tree, or that of the snapshot that is brought back, and the root that follows with it and with the
/// snapshots that are asked for.
fn plan_tree<D: Device>(
    alloc: Global,
    blocks: &mut Blocks<D>,
    geometry: Geometry,
    base: &PointBase,
    changed: &Overlay,
    kind: PointKind,
    asked: &AskedPoint,
) -> Result<(RootBody, Built), PointFault>
    requires disk { 8 * geometry ≤ (D.status (device_of blocks.old)).sectors }
    requires body { IsRootBody base.now.root }
    requires words { length base.now.map ≡ geometry }
    ensures planned { IfOk result (λ made. IsPlanned (IsTrue D.tells_bytes) geometry (store_of (reads (D.disk (device_of blocks.old))))
        kind (kept_in base.now (layer_of changed.now)) asked.now made.1 made.0) }
    ensures spelled { IfOk result (λ made. IsSpellable made.1) }
    ensures aged { result ≡ Err AgePoint → HasAgeFor kind base.now.root → ⊥ }
    ensures damaged { IsTrue D.tells_bytes → result ≡ Err DamagedPoint → CanBeBuiltFor geometry (store_of (reads (D.disk (device_of blocks.old)))) (kept_in base.now (layer_of changed.now)) asked.now
        → CanBeMade asked.now base.now.root.limits base.now.root.snapshots → ⊥ }
    ensures same { IsTrue D.tells_bytes → D.disk (device_of blocks.new) ≡ D.disk (device_of blocks.old) }
    ensures idle { OnOk result (D.status (device_of blocks.new) ≡ D.status (device_of blocks.old)) }
    ensures cause { IfErr result (λ fault. HasCauseToStop fault (D.status (device_of blocks.old)) (D.status (device_of blocks.new))) }
{
    let Some(next) = following_root(&base.root, kind) else {
        return Err(PointFault::Age);
    };
    let Some(Start { edit, inode_file }) = start_for(&base.root, asked) else {
        return Err(PointFault::Damaged);
    };
    let bit = bit_in(&edit);
    let Ok(copy) = changed.copy(alloc) else {
        return Err(PointFault::Memory);
    };
    match build(
        alloc,
        blocks,
        geometry,
        &base.root.limits,
        &inode_file,
        &base.map,
        copy,
        edit,
    ) {
        Ok(built) => {
            words_fit(built.map.words());
            blocks_fit(built.blocks.as_slice());
            let next = with_inode_file(next, &built);
            Ok((with_snapshots(next, asked, bit), built))
        }
        Err(fault) => Err(plan_fault(fault)),
    }
}

/// An empty overlay with room for so many drops: nothing has changed since a root.
pub fn empty_overlay(alloc: Global, drops: u16) -> Result<Overlay, PointFault>
    ensures empty { IfOk result (λ changed. layer_of changed ≡ no_changes) }
    ensures room { IfOk result (λ changed. HasRoom changed (record { nodes = drops; names = 0; blocks = 0 })) }
    ensures fault { IfErr result (λ fault. fault ≡ PointFault.Memory) }
{
    let mut changed = Overlay::new(alloc);
    match changed.reserve(usize::from(drops), 0, 0) {
        Ok(()) => Ok(changed),
        Err(_) => Err(PointFault::Memory),
    }
}

/// Reads the gate of the slot that is replaced, and last the first one of the half that an epoch's records are to be
/// in, which is cleared: so what can't be read is found before the first write.
fn read_ahead<D: Device>(
    blocks: &mut Blocks<D>,
    geometry: Geometry,
    slot: Slot,
    epoch: u64,
) -> Result<Gate, PointFault>
    requires disk { 8 * geometry ≤ (D.status (device_of blocks.old)).sectors }
    ensures gate { IsTrue D.tells_bytes → IfOk result (λ gate. gate_in (reads (D.disk (device_of blocks.old))) slot ≡ gate) }
    ensures same { IsTrue D.tells_bytes → D.disk (device_of blocks.new) ≡ D.disk (device_of blocks.old) }
    ensures idle { OnOk result (D.status (device_of blocks.new) ≡ D.status (device_of blocks.old)) }
    ensures cause { IfErr result (λ fault. HasCauseToStop fault (D.status (device_of blocks.old)) (D.status (device_of blocks.new))) }
    ensures readable { result ≡ Err DamagedPoint → ⊥ }
    ensures ageless { result ≡ Err AgePoint → ⊥ }
{
    let gate = match read_gate(blocks, slot) {
        Ok(gate) => gate,
        Err(fault) => return Err(read_fault(fault)),
    };
    match blocks.read_block(geometry.start(Area::Log(LogHalf::of_epoch(epoch)))) {
        Ok(_) => Ok(gate),
        Err(fault) => Err(read_fault(fault)),
    }
}

/// Plans a point of this kind, with the snapshots that are asked for. It only reads.
pub(crate) fn plan<D: Device>(
    alloc: Global,
    blocks: &mut Blocks<D>,
    geometry: Geometry,
    base: &PointBase,
    changed: &Overlay,
    kind: PointKind,
    asked: &AskedPoint,
) -> Result<Planned, PointFault>
    requires disk { 8 * geometry ≤ (D.status (device_of blocks.old)).sectors }
    requires body { IsRootBody base.now.root }
    requires words { length base.now.map ≡ geometry }
    ensures planned { IfOk result (λ p. IsPlanned (IsTrue D.tells_bytes) geometry (store_of (reads (D.disk (device_of blocks.old))))
        kind (kept_in base.now (layer_of changed.now)) asked.now p.built p.next) }
    ensures spelled { IfOk result (λ p. IsSpellable p.built) }
    ensures gate { IsTrue D.tells_bytes → IfOk result (λ p. gate_in (reads (D.disk (device_of blocks.old))) (other_slot base.now.slot) ≡ p.gate) }
    ensures aged { result ≡ Err AgePoint → HasAgeFor kind base.now.root → ⊥ }
    ensures damaged { IsTrue D.tells_bytes → result ≡ Err DamagedPoint → CanBeBuiltFor geometry (store_of (reads (D.disk (device_of blocks.old)))) (kept_in base.now (layer_of changed.now)) asked.now
        → CanBeMade asked.now base.now.root.limits base.now.root.snapshots → ⊥ }
    ensures same { IsTrue D.tells_bytes → D.disk (device_of blocks.new) ≡ D.disk (device_of blocks.old) }
    ensures idle { OnOk result (D.status (device_of blocks.new) ≡ D.status (device_of blocks.old)) }
    ensures cause { IfErr result (λ fault. HasCauseToStop fault (D.status (device_of blocks.old)) (D.status (device_of blocks.new))) }
{
    let (next, built) = match plan_tree(alloc, blocks, geometry, base, changed, kind, asked) {
        Ok(made) => made,
        Err(fault) => return Err(fault),
    };
    match read_ahead(blocks, geometry, base.slot.other(), next.epoch) {
        Ok(gate) => Ok(Planned { next, built, gate }),
        Err(fault) => Err(fault),
    }
}
