//! The pointers of a tree, planned from the top down.
ghost use Rattle.std.specs.Prelude.{◌≡◌, ◌≢◌, ◌⊎◌, ◌+◌, ◌-◌, ◌*◌, ◌/◌, ◌^◌, ◌<◌, ◌≤◌, ◌↔◌, ℕ, [], ◌∷◌, false, length, slice_index, min, take, drop, Option as TheOption, Err, All, IsTrue, IsNone, IsSome, IfNone, IfSome, IfOk, OnOk};
ghost use Rattle.sn_device.specs.Disk.{reads};
ghost use Rattle.sn_alloc.specs.Taking.{free_data};
ghost use Rattle.sn_block.specs.Lending.{device_of};
ghost use Rattle.sn_image.specs.Reach.{block_reach};
ghost use Rattle.sn_layout_node.specs.Indirect.{ArePointers};
ghost use Rattle.sn_ondisk.specs.Trees.{store_of, all_pointers};
ghost use Rattle.sn_tree.specs.Drafts.{grown};
ghost use Rattle.sn_tree.specs.Dirty.{IsFrom, after};
ghost use Rattle.sn_tree.specs.Plans.{contents, most_added};
ghost use Rattle.sn_tree.specs.Runs.{kept_until};
ghost use Rattle.sn_tree.specs.Steps.{AreHoles, Planned, IsPut, IsReplaced, IsTooFull, LeadsOutsideAt, CountsPlan};
ghost use Rattle.sn_tree.specs.declared.fault.PlanFault.TheVariants.{Tree, Full};
ghost use Rattle.sn_tree_read.specs.declared.fault.TreeFault.{TreeFault as TheFault};
ghost use Rattle.sn_tree_read.specs.declared.fault.TreeFault.TheVariants.{Damaged};

use crate::children::copy_below;
use crate::indirect_copy::IndirectCopy;
use crate::{Build, DirtyBlock, PlanFault};
use sn_block::Blocks;
use sn_device::Device;
use sn_layout_node::{IndirectBlock, POINTERS_PER_BLOCK};
use std::collections::VecDeque;

// How many data blocks are below a pointer that is so many levels above them.
pub(crate) fn span_of(depth: u32) -> u64
    requires { depth ≤ 3 }
    ensures value { result ≡ 1024 ^ depth }
    ensures some { 0 < result }
    ensures most { result ≤ 1073741824 }
{
    1024u64.pow(depth)
}

// Whether no dirty block comes before an index.
fn is_clean(dirty: &VecDeque<DirtyBlock>, end: u64) -> bool
    ensures clean { IsTrue result → (least : ℕ) → IsFrom least dirty.now.items → IsFrom end dirty.now.items }
    ensures dirty { result ≡ false → length (after end dirty.now.items) < length dirty.now.items }
{
    match dirty.front() {
        Some(block) => block.index >= end,
        None => true,
    }
}

// Takes out the dirty block that comes before an index, if one does.
fn take_before(dirty: &mut VecDeque<DirtyBlock>, end: u64) -> Option<DirtyBlock>
    ensures some { IfSome result (λ block. (dirty.old.items ≡ block ∷ dirty.new.items) × (block.index < end)) }
    ensures none { IfNone result (dirty.new.items ≡ dirty.old.items) }
    ensures clean { IfNone result ((least : ℕ) → IsFrom least dirty.old.items → IsFrom end dirty.old.items) }
{
    if is_clean(dirty, end) {
        return None;
    }
    dirty.pop_front()
}

// Whether a pointer stays whose data blocks come before an index: none of them is dirty, and all stay
// or are holes.
fn stays(dirty: &VecDeque<DirtyBlock>, keep: u64, pointer: u32, end: u64) -> bool
    ensures stays { IsTrue result → (least : ℕ) → IsFrom least dirty.now.items
        → IsFrom end dirty.now.items × ((end ≤ keep) ⊎ (pointer ≡ 0)) }
    ensures touched { result ≡ false
        → length (after end dirty.now.items) ≡ length dirty.now.items → keep < end }
{
    if !is_clean(dirty, end) {
        return false;
    }
    end <= keep || pointer == 0
}

// Up to which data block all stay.
fn stays_until(dirty: &VecDeque<DirtyBlock>, keep: u64) -> u64
    ensures { result ≡ kept_until keep dirty.now.items }
{
    match dirty.front() {
        Some(block) => keep.min(block.index),
        None => keep,
    }
}

// How many of so many pointers side by side stay, counted from the first one, whose data
// blocks begin at an index.
fn count_kept(dirty: &VecDeque<DirtyBlock>, keep: u64, at: u64, span: u64, count: usize) -> usize
    requires { 0 < span }
    ensures { result ≡ min ((kept_until keep dirty.now.items - at) / span) count }
{
    let kept = stays_until(dirty, keep).saturating_sub(at) / span;
    kept.min(count as u64) as usize
}

// How many of the first pointers are holes, counted from the first one.
fn leading_holes(pointers: &[u32]) -> usize
    ensures most { result ≤ length pointers.now }
    ensures holes { All (λ p. p ≡ 0) (take result pointers.now) }
    ensures ends { result < length pointers.now → slice_index pointers.now result ≢ 0 }
{
    pointers
        .iter()
        .position(|pointer| *pointer != 0)
        .unwrap_or(pointers.len())
}

// How many of these are holes without a dirty block below them, counted from the first one, whose data
// blocks begin at an index.
fn count_holes(dirty: &VecDeque<DirtyBlock>, at: u64, span: u64, pointers: &[u32]) -> usize
    requires { 0 < span }
    ensures most { result ≤ length pointers.now }
    ensures clean { 0 < result → (least : ℕ) → IsFrom least dirty.now.items
        → IsFrom (at + result * span) dirty.now.items }
    ensures holes { All (λ p. p ≡ 0) (take result pointers.now) }
{
    let clean = count_kept(dirty, u64::MAX, at, span, pointers.len());
    leading_holes(&pointers[..clean])
}

// How many of these stay, counted from the first one.
fn count_staying(
    dirty: &VecDeque<DirtyBlock>,
    keep: u64,
    at: u64,
    span: u64,
    pointers: &[u32],
) -> usize
    requires { 0 < span }
    ensures most { result ≤ length pointers.now }
    ensures stay { 0 < result → (least : ℕ) → IsFrom least dirty.now.items
        → IsFrom (at + result * span) dirty.now.items
        × ((at + result * span ≤ keep) ⊎ All (λ p. p ≡ 0) (take result pointers.now)) }
{
    let kept = count_kept(dirty, keep, at, span, pointers.len());
    if kept > 0 {
        return kept;
    }
    count_holes(dirty, at, span, pointers)
}

// The same for the pointers of a copy from one on.
fn count_staying_in(
    dirty: &VecDeque<DirtyBlock>,
    keep: u64,
    at: u64,
    span: u64,
    copy: &IndirectCopy,
    from: usize,
) -> usize
    requires span { 0 < span }
    requires from { from ≤ 1024 }
    ensures most { from + result ≤ 1024 }
    ensures stay { 0 < result → (least : ℕ) → IsFrom least dirty.now.items
        → IsFrom (at + result * span) dirty.now.items
        × ((at + result * span ≤ keep) ⊎ All (λ p. p ≡ 0) (take result (drop from copy.now))) }
{
    let left = POINTERS_PER_BLOCK - from;
    let kept = count_kept(dirty, keep, at, span, left);
    if kept > 0 {
        return kept;
    }
    copy.count_holes(from, count_kept(dirty, u64::MAX, at, span, left))
}

// The new pointer in place of one to a data block: that of the dirty block, or a hole.
fn replace_block(
    build: &mut Build,
    pointer: u32,
    dirty: Option<DirtyBlock>,
) -> Result<u32, PlanFault>
    ensures none { IsNone dirty → IfOk result (λ new. (new ≡ 0)
        × (build.new ≡ grown build.old [] (block_reach pointer))) }
    ensures some { IfSome dirty (λ block. IfOk result
        (λ new. IsPut build.old build.new pointer new block.bytes.value)) }
    ensures filled { result ≡ Err Full → IsSome dirty }
    ensures full { result ≡ Err Full → free_data build.old.words build.old.first ≤ length build.old.added }
    ensures own { (fault : TheFault) → result ≢ Err (Tree fault) }
{
    build.release(pointer)?;
    match dirty {
        Some(DirtyBlock { index: _, bytes }) => build.put(bytes),
        None => Ok(0),
    }
}

fn are_holes(pointers: &[u32; POINTERS_PER_BLOCK]) -> bool
    ensures holes { IsTrue result ↔ All (λ p. p ≡ 0) pointers.now }
    ensures are { ArePointers pointers.now }
{
    pointers.iter().all(|pointer| *pointer == 0)
}

// The new pointer in place of one to an indirect block: that of a block of these pointers, or a hole
// where all of them are.
pub(crate) fn replace_pointers(
    build: &mut Build,
    pointer: u32,
    pointers: &[u32; POINTERS_PER_BLOCK],
) -> Result<u32, PlanFault>
    ensures replaced { IfOk result (IsReplaced build.old build.new pointer pointers.now) }
    ensures full { result ≡ Err Full → free_data build.old.words build.old.first ≤ length build.old.added }
    ensures filled { result ≡ Err Full → ¬ AreHoles pointers.now }
    ensures own { (fault : TheFault) → result ≢ Err (Tree fault) }
{
    build.release(pointer)?;
    if are_holes(pointers) {
        return Ok(0);
    }
    let mut block = build.zeros()?;
    IndirectBlock::encode(pointers, &mut block);
    build.put(block)
}

// The same of pointers that were set in a copy.
fn replace_copy(build: &mut Build, pointer: u32, copy: IndirectCopy) -> Result<u32, PlanFault>
    ensures replaced { IfOk result (IsReplaced build.old build.new pointer copy) }
    ensures full { result ≡ Err Full → free_data build.old.words build.old.first ≤ length build.old.added }
    ensures filled { result ≡ Err Full → ¬ AreHoles copy }
    ensures own { (fault : TheFault) → result ≢ Err (Tree fault) }
{
    build.release(pointer)?;
    if copy.is_empty() {
        return Ok(0);
    }
    build.put(copy.into_bytes())
}

// The new pointer in place of one that is so many levels above its data blocks, of which the first
// has this index. Where what stays ends below an indirect block and nothing below it changes, its block stays.
#[cycle(plan)]
fn plan_pointer<D: Device>(
    build: &mut Build,
    blocks: &mut Blocks<D>,
    dirty: &mut VecDeque<DirtyBlock>,
    keep: u64,
    pointer: u32,
    depth: u32,
    first: u64,
) -> Result<u32, PlanFault>
    requires depth { depth ≤ 3 }
    requires room { first + 1024 ^ depth ≤ 2 ^ 62 }
    requires rise { IsFrom first dirty.old.items }
    ensures planned { IfOk result (λ new. Planned (IsTrue D.tells_bytes) (store_of (reads (D.disk (device_of blocks.old))))
        (all_pointers (store_of (reads (D.disk (device_of blocks.old)))) depth (pointer ∷ []))
        (contents (store_of (reads (D.disk (device_of blocks.old)))) depth (pointer ∷ []))
        depth first (first + 1024 ^ depth) keep dirty.old.items dirty.new.items (new ∷ []) build.old build.new) }
    ensures still { IfOk result (λ new. build.new ≡ build.old → new ≡ pointer) }
    ensures full { IsTooFull result build.old
        (most_added depth first (first + 1024 ^ depth) keep dirty.old.items) }
    ensures damaged { IsTrue D.tells_bytes → (block : TheOption ℕ) → result ≡ Err (Tree (Damaged block))
        → LeadsOutsideAt (D.status (device_of blocks.old)).sectors
        (all_pointers (store_of (reads (D.disk (device_of blocks.old)))) depth (pointer ∷ [])) block }
    ensures same { IsTrue D.tells_bytes → D.disk (device_of blocks.new) ≡ D.disk (device_of blocks.old) }
    ensures counts { CountsPlan result (D.status (device_of blocks.old)) (D.status (device_of blocks.new)) }
{
    let end = first + span_of(depth);
    if stays(dirty, keep, pointer, end) {
        return Ok(pointer);
    }
    if depth == 0 {
        let block = take_before(dirty, end);
        return replace_block(build, pointer, block);
    }
    let mut copy = copy_below(build, blocks, pointer)?;
    let counts = build.counts();
    plan_copy(build, blocks, dirty, keep, &mut copy, depth - 1, first)?;
    if first < keep && build.counts() == counts {
        return Ok(pointer);
    }
    replace_copy(build, pointer, copy)
}

// The same for the pointers of an indirect block, which are set in a copy of it. A stretch of them that stay is passed
// over at once: most are such.
#[cycle(plan)]
fn plan_copy<D: Device>(
    build: &mut Build,
    blocks: &mut Blocks<D>,
    dirty: &mut VecDeque<DirtyBlock>,
    keep: u64,
    copy: &mut IndirectCopy,
    depth: u32,
    first: u64,
) -> Result<(), PlanFault>
    requires depth { depth ≤ 3 }
    requires count { length copy.old ≡ 1024 }
    requires room { first + length copy.old * 1024 ^ depth ≤ 2 ^ 62 }
    requires rise { IsFrom first dirty.old.items }
    ensures planned { OnOk result (Planned (IsTrue D.tells_bytes) (store_of (reads (D.disk (device_of blocks.old))))
        (all_pointers (store_of (reads (D.disk (device_of blocks.old)))) depth copy.old)
        (contents (store_of (reads (D.disk (device_of blocks.old)))) depth copy.old)
        depth first (first + length copy.old * 1024 ^ depth) keep dirty.old.items dirty.new.items copy.new build.old build.new) }
    ensures still { OnOk result (build.new ≡ build.old → copy.new ≡ copy.old) }
    ensures full { IsTooFull result build.old
        (most_added depth first (first + length copy.old * 1024 ^ depth) keep dirty.old.items) }
    ensures damaged { IsTrue D.tells_bytes → (block : TheOption ℕ) → result ≡ Err (Tree (Damaged block))
        → LeadsOutsideAt (D.status (device_of blocks.old)).sectors
        (all_pointers (store_of (reads (D.disk (device_of blocks.old)))) depth copy.old) block }
    ensures same { IsTrue D.tells_bytes → D.disk (device_of blocks.new) ≡ D.disk (device_of blocks.old) }
    ensures counts { CountsPlan result (D.status (device_of blocks.old)) (D.status (device_of blocks.new)) }
{
    let span = span_of(depth);
    let mut k = 0;
    while k < POINTERS_PER_BLOCK {
        let at = first + span * k as u64;
        let staying = count_staying_in(dirty, keep, at, span, copy, k);
        if staying > 0 {
            k += staying;
        } else {
            let new = plan_pointer(build, blocks, dirty, keep, copy.pointer(k), depth, at)?;
            copy.set(k, new);
            k += 1;
        }
    }
    Ok(())
}

/// Plans pointers side by side, so many levels above their data blocks, of which the first has this
/// index. The new ones take their place. `depth` is 0 for pointers to data blocks, and one more for each level of
/// indirect blocks. Of the data blocks below them the dirty ones are taken out of the queue, whose indices rise
/// from `first` on; the others stay where their index is below `keep`, and are cut off where it isn't. `Full` comes
/// only where fewer blocks are left than a path for each dirty block that is taken out and, where what stays ends
/// below them, the indirect blocks of one more (`most_added`). `Damaged` comes only where a block that the old
/// pointers reach isn't on the device. After an error the build can only be given up.
pub fn plan_pointers<D: Device>(
    build: &mut Build,
    blocks: &mut Blocks<D>,
    dirty: &mut VecDeque<DirtyBlock>,
    keep: u64,
    pointers: &mut [u32],
    depth: u32,
    first: u64,
) -> Result<(), PlanFault>
    requires depth { depth ≤ 3 }
    requires room { first + length pointers.old * 1024 ^ depth ≤ 2 ^ 62 }
    requires rise { IsFrom first dirty.old.items }
    ensures planned { OnOk result (Planned (IsTrue D.tells_bytes) (store_of (reads (D.disk (device_of blocks.old))))
        (all_pointers (store_of (reads (D.disk (device_of blocks.old)))) depth pointers.old)
        (contents (store_of (reads (D.disk (device_of blocks.old)))) depth pointers.old)
        depth first (first + length pointers.old * 1024 ^ depth) keep dirty.old.items dirty.new.items pointers.new build.old build.new) }
    ensures still { OnOk result (build.new ≡ build.old → pointers.new ≡ pointers.old) }
    ensures full { IsTooFull result build.old
        (most_added depth first (first + length pointers.old * 1024 ^ depth) keep dirty.old.items) }
    ensures damaged { IsTrue D.tells_bytes → (block : TheOption ℕ) → result ≡ Err (Tree (Damaged block))
        → LeadsOutsideAt (D.status (device_of blocks.old)).sectors
        (all_pointers (store_of (reads (D.disk (device_of blocks.old)))) depth pointers.old) block }
    ensures same { IsTrue D.tells_bytes → D.disk (device_of blocks.new) ≡ D.disk (device_of blocks.old) }
    ensures counts { CountsPlan result (D.status (device_of blocks.old)) (D.status (device_of blocks.new)) }
{
    let span = span_of(depth);
    let mut k = 0;
    while k < pointers.len() {
        let at = first + span * k as u64;
        let staying = count_staying(dirty, keep, at, span, &pointers[k..]);
        if staying > 0 {
            k += staying;
        } else {
            let new = plan_pointer(build, blocks, dirty, keep, pointers[k], depth, at)?;
            pointers[k] = new;
            k += 1;
        }
    }
    Ok(())
}
