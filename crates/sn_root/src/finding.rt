//! The newest root.
ghost use Rattle.std.specs.Prelude.{◌≡◌, ◌≤◌, IsTrue, IfOk};
ghost use Rattle.sn_device.specs.Sectors.{Contents};
ghost use Rattle.sn_device.specs.Disk.{reads};
ghost use Rattle.sn_layout.specs.RootBody.{IsRootBody};
ghost use Rattle.sn_layout.specs.declared.geometry.Slot.TheVariants.{A as SlotA, B as SlotB};
ghost use Rattle.sn_block.specs.Lending.{device_of};
ghost use Rattle.sn_root.specs.declared.slots.Carried.TheVariants.{Nothing as HeldNothing, Root as HeldRoot};
ghost use Rattle.sn_root.specs.Carried.{Holds, Fits};
ghost use Rattle.sn_root.specs.Finding.{Finds, IsRead, CountsFinding};

use crate::slots::{Carried, look, read_gates};
use crate::{RootDamage, RootFault};
use sn_block::Blocks;
use sn_device::Device;
use sn_layout::{Gate, RootBody, Slot};

/// The root that counts, and where it is.
#[derive(PartialEq, Eq, Drop)]
pub struct NewestRoot {
    pub slot: Slot,
    pub root: RootBody,
    /// The gate of the other slot, after which there is an older root if it is open.
    pub other: Gate,
}

/// The root that counts: of the slots whose gate is open, that with the greater generation. It reads
/// the gates and the bodies of the open slots, three blocks at most.
///
/// Proved, also of `finding_is_one`: The newest root is found where there is one, and else the one fault that the disk has:
/// no open slot, an unknown version, a misspelt body or two roots of one generation; a failed read is an answer of its own.
pub fn newest<D: Device>(blocks: &mut Blocks<D>) -> Result<NewestRoot, RootFault>
    requires room { 32 ≤ (D.status (device_of blocks.old)).sectors }
    ensures found { IsTrue D.tells_bytes → Finds (reads (D.disk (device_of blocks.old))) result }
    ensures fits { IfOk result (λ newest. IsRootBody newest.root) }
    ensures same { IsTrue D.tells_bytes → D.disk (device_of blocks.new) ≡ D.disk (device_of blocks.old) }
    ensures counts { CountsFinding result (D.status (device_of blocks.old)) (D.status (device_of blocks.new)) }
{
    let (gate_a, gate_b) = read_gates(blocks)?;
    let a = look(blocks, Slot::A, gate_a)?;
    let b = look(blocks, Slot::B, gate_b)?;
    choose(a, b)
}

// Which of the two counts. Versions come before what the bodies spell, and slot A before slot B.
fn choose(a: Carried, b: Carried) -> Result<NewestRoot, RootFault>
    ensures finds { (c : Contents) → Holds c SlotA a → Holds c SlotB b → Finds c result }
    ensures read { IsRead result }
    ensures fits { Fits a → Fits b → IfOk result (λ newest. IsRootBody newest.root) }
{
    match a {
        Carried::Nothing => choose_b(b),
        Carried::UnknownVersion => Err(RootFault::UnknownVersion),
        Carried::Misspelt => match b {
            Carried::UnknownVersion => Err(RootFault::UnknownVersion),
            _ => Err(RootFault::Damaged(RootDamage::Misspelt(Slot::A))),
        },
        Carried::Root(root) => choose_beside(root, b),
    }
}

// What counts where slot A is closed.
fn choose_b(b: Carried) -> Result<NewestRoot, RootFault>
    ensures finds { (c : Contents) → Holds c SlotA HeldNothing → Holds c SlotB b → Finds c result }
    ensures read { IsRead result }
    ensures fits { Fits b → IfOk result (λ newest. IsRootBody newest.root) }
{
    match b {
        Carried::Nothing => Err(RootFault::NoOpenRoot),
        Carried::UnknownVersion => Err(RootFault::UnknownVersion),
        Carried::Misspelt => Err(RootFault::Damaged(RootDamage::Misspelt(Slot::B))),
        Carried::Root(root) => Ok(newest_in(Slot::B, root, Gate::Closed)),
    }
}

// What counts where slot A has a root.
fn choose_beside(root: RootBody, b: Carried) -> Result<NewestRoot, RootFault>
    ensures finds { (c : Contents) → Holds c SlotA (HeldRoot root) → Holds c SlotB b → Finds c result }
    ensures read { IsRead result }
    ensures fits { IsRootBody root → Fits b → IfOk result (λ newest. IsRootBody newest.root) }
{
    match b {
        Carried::Nothing => Ok(newest_in(Slot::A, root, Gate::Closed)),
        Carried::UnknownVersion => Err(RootFault::UnknownVersion),
        Carried::Misspelt => Err(RootFault::Damaged(RootDamage::Misspelt(Slot::B))),
        Carried::Root(other) => newer(root, other),
    }
}

fn newest_in(slot: Slot, root: RootBody, other: Gate) -> NewestRoot
    ensures slot { result.slot ≡ slot }
    ensures root { result.root ≡ root }
    ensures other { result.other ≡ other }
{
    NewestRoot { slot, root, other }
}

// The newer of two roots that are open, that of slot A and that of slot B.
fn newer(one: RootBody, other: RootBody) -> Result<NewestRoot, RootFault>
    ensures finds { (c : Contents) → Holds c SlotA (HeldRoot one) → Holds c SlotB (HeldRoot other) → Finds c result }
    ensures read { IsRead result }
    ensures fits { IsRootBody one → IsRootBody other → IfOk result (λ newest. IsRootBody newest.root) }
{
    if one.generation == other.generation {
        return Err(RootFault::Damaged(RootDamage::EqualGenerations));
    }
    if one.generation > other.generation {
        Ok(newest_in(Slot::A, one, Gate::Open))
    } else {
        Ok(newest_in(Slot::B, other, Gate::Open))
    }
}
