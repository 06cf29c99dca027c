//! The overlay of a change over the tree that it changes.
ghost use Rattle.std.specs.Prelude.{◌≡◌, ◌+◌, ◌*◌, ◌/◌, ◌<◌, ◌≤◌, ◌^◌, Some, IsTrue, IfOk, IfSome, OnOk, length};
ghost use Rattle.sn_model.specs.Tree.{Tree, link_to};
ghost use Rattle.sn_model.specs.Changes.{overwritten, apply};
ghost use Rattle.sn_model.specs.NameTree.{IsHierarchy};
ghost use Rattle.sn_overlay_change.specs.ChangeLayers.{make_layer, link_layer, remove_layer, rename_layer, exchange_layer, replacing, touching, write_layer, with_blocks, size_layer, ownership_layer, layer_of_change};
ghost use Rattle.sn_overlay_change.specs.Faults.{IfBelow};
ghost use Rattle.sn_overlay.specs.Layers.{through, bytes_of};
ghost use Rattle.sn_overlay.specs.Needs.{need, need_of, counts_for};
ghost use Rattle.sn_overlay.specs.Overlays.{layer_of, no_changes, HasRoom, TakesRoom};
ghost use Rattle.sn_overlay.specs.Pieces.{piece};
ghost use Rattle.sn_overlay.specs.Seen.{seen_node, seen_block, LiesOver};
ghost use Rattle.std.specs.FinMap as map;
ghost use Rattle.sn_walk.specs.Frame.{Leaves};

use crate::LayerFault;
use crate::made::{add_name, boxed, lose_name, splice, touch, with_room, zero_from};
use crate::reads::{block_of, node_of, number_of};
use crate::states::{kept, made, owned, resized, written};
use sn_limits::{Kind, Limits};
use sn_model::{Bytes, Change, Link, Ownership, Word};
use sn_overlay::{BLOCK_SIZE, Below, Block, FileBlock, NodeChange, Overlay};
use std::alloc::{AllocError, Global};

fn make<B: Below>(
    alloc: Global,
    below: &mut B,
    link: Link,
    number: u16,
    kind: Kind,
    ownership: &Ownership,
) -> Result<Overlay, LayerFault<B::Fault>>
    requires { B.holds below.old }
    ensures left { Leaves B.holds B.follows B.is_told B.shows below.old below.new }
    ensures layer { IsTrue B.is_told → IfOk result (λ o. layer_of o ≡ make_layer (B.shows below.old) link number kind ownership.now) }
    ensures cause { IfBelow result (λ f. B.causes below.old below.new f) }
{
    let parent = node_of(below, link.directory)?;
    let mut overlay = with_room(alloc, 2, 1, 0)?;
    touch(&mut overlay, link.directory, parent);
    overlay.set_node(number, NodeChange::Changed(made(kind, ownership)));
    overlay.set_name(link, Some(number));
    Ok(overlay)
}

fn add_link<B: Below>(
    alloc: Global,
    below: &mut B,
    link: Link,
    number: u16,
) -> Result<Overlay, LayerFault<B::Fault>>
    requires { B.holds below.old }
    ensures left { Leaves B.holds B.follows B.is_told B.shows below.old below.new }
    ensures layer { IsTrue B.is_told → IfSome (seen_node (B.shows below.old) number) (λ file. file.links + 1 < 2 ^ 16) → IfOk result (λ o. layer_of o ≡ link_layer (B.shows below.old) link number) }
    ensures cause { IfBelow result (λ f. B.causes below.old below.new f) }
{
    let parent = node_of(below, link.directory)?;
    let file = node_of(below, number)?;
    let mut overlay = with_room(alloc, 2, 1, 0)?;
    touch(&mut overlay, link.directory, parent);
    add_name(&mut overlay, number, file);
    overlay.set_name(link, Some(number));
    Ok(overlay)
}

fn remove<B: Below>(
    alloc: Global,
    below: &mut B,
    link: Link,
) -> Result<Overlay, LayerFault<B::Fault>>
    requires { B.holds below.old }
    ensures left { Leaves B.holds B.follows B.is_told B.shows below.old below.new }
    ensures layer { IsTrue B.is_told → IfOk result (λ o. layer_of o ≡ remove_layer (B.shows below.old) link) }
    ensures cause { IfBelow result (λ f. B.causes below.old below.new f) }
{
    let Some(number) = number_of(below, &link)? else {
        return Ok(Overlay::new(alloc));
    };
    let parent = node_of(below, link.directory)?;
    let object = node_of(below, number)?;
    let mut overlay = with_room(alloc, 2, 1, 0)?;
    touch(&mut overlay, link.directory, parent);
    lose_name(&mut overlay, number, object);
    overlay.set_name(link, None);
    Ok(overlay)
}

fn own<B: Below>(
    alloc: Global,
    below: &mut B,
    number: u16,
    ownership: &Ownership,
) -> Result<Overlay, LayerFault<B::Fault>>
    requires { B.holds below.old }
    ensures left { Leaves B.holds B.follows B.is_told B.shows below.old below.new }
    ensures layer { IsTrue B.is_told → IfOk result (λ o. layer_of o ≡ ownership_layer (B.shows below.old) number ownership.now) }
    ensures cause { IfBelow result (λ f. B.causes below.old below.new f) }
{
    let Some(seen) = node_of(below, number)? else {
        return Ok(Overlay::new(alloc));
    };
    let mut overlay = with_room(alloc, 1, 0, 0)?;
    overlay.set_node(number, NodeChange::Changed(owned(kept(seen), ownership)));
    Ok(overlay)
}

// A directory of which a name changes, as it is below.
fn touch_below<B: Below>(
    below: &mut B,
    overlay: &mut Overlay,
    number: u16,
) -> Result<(), LayerFault<B::Fault>>
    requires holds { B.holds below.old }
    requires room { HasRoom overlay.old (record { nodes = 1; names = 0; blocks = 0 }) }
    ensures left { Leaves B.holds B.follows B.is_told B.shows below.old below.new }
    ensures layer { IsTrue B.is_told → OnOk result (layer_of overlay.new ≡ touching (B.shows below.old) number (layer_of overlay.old)) }
    ensures taken { TakesRoom overlay.old overlay.new (record { nodes = 1; names = 0; blocks = 0 }) }
    ensures cause { IfBelow result (λ f. B.causes below.old below.new f) }
{
    let seen = node_of(below, number)?;
    touch(overlay, number, seen);
    Ok(())
}

// What has the new name of a rename loses it, if anything has it.
fn replace_below<B: Below>(
    below: &mut B,
    overlay: &mut Overlay,
    replaced: Option<u16>,
) -> Result<(), LayerFault<B::Fault>>
    requires holds { B.holds below.old }
    requires room { HasRoom overlay.old (record { nodes = 1; names = 0; blocks = 0 }) }
    ensures left { Leaves B.holds B.follows B.is_told B.shows below.old below.new }
    ensures layer { IsTrue B.is_told → OnOk result (layer_of overlay.new ≡ replacing (B.shows below.old) (layer_of overlay.old) replaced) }
    ensures taken { TakesRoom overlay.old overlay.new (record { nodes = 1; names = 0; blocks = 0 }) }
    ensures cause { IfBelow result (λ f. B.causes below.old below.new f) }
{
    let Some(number) = replaced else {
        return Ok(());
    };
    let object = node_of(below, number)?;
    lose_name(overlay, number, object);
    Ok(())
}

// The nodes of which a rename changes the names, with room for both names.
fn exchange_nodes<B: Below>(
    alloc: Global,
    below: &mut B,
    old_directory: u16,
    new_directory: u16,
    replaced: Option<u16>,
) -> Result<Overlay, LayerFault<B::Fault>>
    requires { B.holds below.old }
    ensures left { Leaves B.holds B.follows B.is_told B.shows below.old below.new }
    ensures layer { IsTrue B.is_told → IfOk result (λ o. layer_of o ≡ replacing (B.shows below.old) (touching (B.shows below.old) new_directory (touching (B.shows below.old) old_directory no_changes)) replaced) }
    ensures room { IfOk result (λ o. HasRoom o (record { nodes = 0; names = 2; blocks = 0 })) }
    ensures cause { IfBelow result (λ f. B.causes below.old below.new f) }
{
    let mut overlay = with_room(alloc, 3, 2, 0)?;
    touch_below(below, &mut overlay, old_directory)?;
    touch_below(below, &mut overlay, new_directory)?;
    replace_below(below, &mut overlay, replaced)?;
    Ok(overlay)
}

// What a rename leaves of the names: what had the new one loses it.
fn exchange<B: Below>(
    alloc: Global,
    below: &mut B,
    old: Link,
    new: Link,
    number: u16,
    replaced: Option<u16>,
) -> Result<Overlay, LayerFault<B::Fault>>
    requires { B.holds below.old }
    ensures left { Leaves B.holds B.follows B.is_told B.shows below.old below.new }
    ensures layer { IsTrue B.is_told → replaced ≡ map.get (B.shows below.old).links new → IfOk result (λ o. layer_of o ≡ exchange_layer (B.shows below.old) old new number) }
    ensures cause { IfBelow result (λ f. B.causes below.old below.new f) }
{
    let mut overlay = exchange_nodes(alloc, below, old.directory, new.directory, replaced)?;
    overlay.set_name(old, None);
    overlay.set_name(new, Some(number));
    Ok(overlay)
}

fn rename<B: Below>(
    alloc: Global,
    below: &mut B,
    old: Link,
    new: Link,
) -> Result<Overlay, LayerFault<B::Fault>>
    requires { B.holds below.old }
    ensures left { Leaves B.holds B.follows B.is_told B.shows below.old below.new }
    ensures layer { IsTrue B.is_told → IfOk result (λ o. layer_of o ≡ rename_layer (B.shows below.old) old new) }
    ensures cause { IfBelow result (λ f. B.causes below.old below.new f) }
{
    let Some(number) = number_of(below, &old)? else {
        return Ok(Overlay::new(alloc));
    };
    let replaced = number_of(below, &new)?;
    if replaced == Some(number) {
        return Ok(Overlay::new(alloc));
    }
    exchange(alloc, below, old, new, number, replaced)
}

// A block as it is below. Where so many bytes fill it, it isn't read, and zeros take its place.
fn old_block<B: Below>(
    below: &mut B,
    file_block: FileBlock,
    count: usize,
) -> Result<Block, LayerFault<B::Fault>>
    requires { B.holds below.old }
    ensures left { Leaves B.holds B.follows B.is_told B.shows below.old below.new }
    ensures long { IfOk result (λ block. length block ≡ 4096) }
    ensures block { IsTrue B.is_told → count < 4096 → IfOk result (λ block. block ≡ seen_block (B.shows below.old) file_block) }
    ensures cause { IfBelow result (λ f. B.causes below.old below.new f) }
{
    let mut block = [0; BLOCK_SIZE];
    if count < BLOCK_SIZE {
        block_of(below, file_block, &mut block)?;
    }
    Ok(block)
}

// A block of a file, with the bytes in place that are in it.
fn written_block<B: Below>(
    alloc: Global,
    below: &mut B,
    file_block: FileBlock,
    offset: u64,
    bytes: &[u8],
) -> Result<Box<Block>, LayerFault<B::Fault>>
    requires holds { B.holds below.old }
    requires high { offset < (file_block.index + 1) * 4096 }
    requires low { file_block.index * 4096 < offset + length bytes.now }
    requires fits { file_block.index * 4096 < 2 ^ 64 }
    ensures left { Leaves B.holds B.follows B.is_told B.shows below.old below.new }
    ensures block { IsTrue B.is_told → IfOk result (λ b. b.value ≡ piece 4096 (overwritten (bytes_of (map.get (B.shows below.old).nodes file_block.file)) offset bytes.now) file_block.index) }
    ensures cause { IfBelow result (λ f. B.causes below.old below.new f) }
{
    let start = file_block.index * BLOCK_SIZE as u64;
    let from = offset.saturating_sub(start) as usize;
    let skip = start.saturating_sub(offset) as usize;
    let count = (bytes.len() - skip).min(BLOCK_SIZE - from);
    let mut block = old_block(below, file_block, count)?;
    splice(&mut block, from, &bytes[skip..skip + count]);
    Ok(boxed(alloc, block)?)
}

// Each of so many blocks that bytes are written to.
fn write_blocks<B: Below>(
    alloc: Global,
    below: &mut B,
    overlay: &mut Overlay,
    number: u16,
    offset: u64,
    bytes: &[u8],
    count: u64,
) -> Result<(), LayerFault<B::Fault>>
    requires holds { B.holds below.old }
    requires room { HasRoom overlay.old (record { nodes = 0; names = 0; blocks = count }) }
    requires within { (offset / 4096 + count) * 4096 < offset + length bytes.now + 4096 }
    requires fits { (offset / 4096 + count) * 4096 ≤ 2 ^ 64 }
    ensures left { Leaves B.holds B.follows B.is_told B.shows below.old below.new }
    ensures layer { IsTrue B.is_told → OnOk result (layer_of overlay.new ≡ with_blocks (layer_of overlay.old) number (piece 4096 (overwritten (bytes_of (map.get (B.shows below.old).nodes number)) offset bytes.now)) (offset / 4096) count) }
    ensures cause { IfBelow result (λ f. B.causes below.old below.new f) }
{
    for i in 0..count {
        let file_block = FileBlock {
            file: number,
            index: offset / BLOCK_SIZE as u64 + i,
        };
        let block = written_block(alloc, below, file_block, offset, bytes)?;
        overlay.set_block(file_block, block);
    }
    Ok(())
}

fn write<B: Below>(
    alloc: Global,
    below: &mut B,
    number: u16,
    offset: u64,
    bytes: &[u8],
) -> Result<Overlay, LayerFault<B::Fault>>
    requires { B.holds below.old }
    ensures left { Leaves B.holds B.follows B.is_told B.shows below.old below.new }
    ensures layer { IsTrue B.is_told → 0 < length bytes.now → offset + length bytes.now < 2 ^ 64 → IfOk result (λ o. layer_of o ≡ write_layer (B.shows below.old) number offset bytes.now) }
    ensures cause { IfBelow result (λ f. B.causes below.old below.new f) }
{
    if bytes.is_empty() {
        return Ok(Overlay::new(alloc));
    }
    let Some(seen) = node_of(below, number)? else {
        return Ok(Overlay::new(alloc));
    };
    let end = offset.saturating_add(bytes.len() as u64);
    let count = (end - 1) / BLOCK_SIZE as u64 - offset / BLOCK_SIZE as u64 + 1;
    let mut overlay = with_room(alloc, 1, 0, count as usize)?;
    overlay.set_node(number, NodeChange::Changed(written(kept(seen), end)));
    write_blocks(alloc, below, &mut overlay, number, offset, bytes, count)?;
    Ok(overlay)
}

fn resize<B: Below>(
    alloc: Global,
    below: &mut B,
    number: u16,
    size: u64,
) -> Result<Overlay, LayerFault<B::Fault>>
    requires { B.holds below.old }
    ensures left { Leaves B.holds B.follows B.is_told B.shows below.old below.new }
    ensures layer { IsTrue B.is_told → IfOk result (λ o. layer_of o ≡ size_layer (B.shows below.old) number size) }
    ensures cause { IfBelow result (λ f. B.causes below.old below.new f) }
{
    let Some(seen) = node_of(below, number)? else {
        return Ok(Overlay::new(alloc));
    };
    let cuts_block = size < seen.size && size % BLOCK_SIZE as u64 != 0;
    let mut overlay = with_room(alloc, 1, 0, 1)?;
    overlay.set_node(number, NodeChange::Changed(resized(kept(seen), size)));
    if cuts_block {
        let file_block = FileBlock {
            file: number,
            index: size / BLOCK_SIZE as u64,
        };
        let mut block = [0; BLOCK_SIZE];
        block_of(below, file_block, &mut block)?;
        zero_from(&mut block, (size % BLOCK_SIZE as u64) as usize);
        overlay.set_block(file_block, boxed(alloc, block)?);
    }
    Ok(overlay)
}

// A name of a directory, to be kept.
fn kept_link(alloc: Global, directory: u16, name: &Bytes<'_>) -> Result<Link, AllocError>
    ensures { IfOk result (λ link. link ≡ link_to directory name.now) }
{
    Ok(Link {
        directory,
        name: Word::new(alloc, name.as_slice())?,
    })
}

// The overlay of a change, as its layer is defined.
fn layered<B: Below>(
    alloc: Global,
    limits: &Limits,
    below: &mut B,
    change: &Change<'_>,
) -> Result<Overlay, LayerFault<B::Fault>>
    requires { B.holds below.old }
    ensures left { Leaves B.holds B.follows B.is_told B.shows below.old below.new }
    ensures layer { IsTrue B.is_told → (after : Tree) → apply limits.now change.now (B.shows below.old) ≡ Some after → IfOk result (λ o. layer_of o ≡ layer_of_change (B.shows below.old) change.now) }
    ensures cause { IfBelow result (λ f. B.causes below.old below.new f) }
{
    let _most_links = limits.links;
    let _largest_file = limits.largest_file;
    match change {
        Change::Make {
            directory,
            name,
            number,
            kind,
            ownership,
        } => {
            let link = kept_link(alloc, *directory, name)?;
            make(alloc, below, link, *number, *kind, ownership)
        }
        Change::AddLink {
            directory,
            name,
            number,
        } => {
            let link = kept_link(alloc, *directory, name)?;
            add_link(alloc, below, link, *number)
        }
        Change::Remove { directory, name } => {
            let link = kept_link(alloc, *directory, name)?;
            remove(alloc, below, link)
        }
        Change::Rename {
            old_directory,
            old_name,
            new_directory,
            new_name,
        } => {
            let old = kept_link(alloc, *old_directory, old_name)?;
            let new = kept_link(alloc, *new_directory, new_name)?;
            rename(alloc, below, old, new)
        }
        Change::Write {
            number,
            offset,
            bytes,
        } => write(alloc, below, *number, *offset, bytes.as_slice()),
        Change::SetSize { number, size } => resize(alloc, below, *number, *size),
        Change::SetAttributes { number, ownership } => own(alloc, below, *number, ownership),
    }
}

/// The overlay of a change that can be applied to the tree below. Through it that tree is what the
/// change makes of it; it may be laid over others there, and needs no more blocks than were counted for
/// the change.
///
/// All that is read is read here, and all memory that the change takes is taken here, so that laying
/// the overlay over an older one, where there is room, can't fail. A fault is one of the tree below, or
/// memory's.
///
/// Proved: The overlay of a change that can be applied is made of what is read of the tree below, of old blocks only those
/// of which some bytes stay, and this alone takes memory.
pub fn of_change<B: Below>(
    alloc: Global,
    limits: &Limits,
    below: &mut B,
    change: &Change<'_>,
) -> Result<Overlay, LayerFault<B::Fault>>
    requires { B.holds below.old }
    ensures left { Leaves B.holds B.follows B.is_told B.shows below.old below.new }
    ensures layer { IsTrue B.is_told → (after : Tree) → apply limits.now change.now (B.shows below.old) ≡ Some after → IfOk result (λ o. layer_of o ≡ layer_of_change (B.shows below.old) change.now) }
    ensures shows { IsTrue B.is_told → (after : Tree) → IsHierarchy (B.shows below.old) → apply limits.now change.now (B.shows below.old) ≡ Some after → IfOk result (λ o. through (layer_of o) (B.shows below.old) ≡ after) }
    ensures lies { IsTrue B.is_told → (after : Tree) → IsHierarchy (B.shows below.old) → apply limits.now change.now (B.shows below.old) ≡ Some after → IfOk result (λ o. LiesOver (layer_of o) (B.shows below.old)) }
    ensures need { IsTrue B.is_told → (after : Tree) → apply limits.now change.now (B.shows below.old) ≡ Some after → IfOk result (λ o. need limits.now (layer_of o) ≤ need_of limits.now (counts_for change.now)) }
    ensures cause { IfBelow result (λ f. B.causes below.old below.new f) }
{
    layered(alloc, limits, below, change)
}
