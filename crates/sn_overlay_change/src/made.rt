//! Overlays of changes, from what was read of the tree below.
ghost use Rattle.std.specs.Prelude.{◌≡◌, ◌+◌, ◌<◌, ◌≤◌, ◌^◌, Some, IfOk, IfSome, length};
ghost use Rattle.sn_overlay.specs.Overlays.{layer_of, no_changes, HasRoom, TakesRoom};
ghost use Rattle.sn_overlay_change.specs.ChangeLayers.{one_name_more};
ghost use Rattle.sn_overlay_change.specs.Blocks.{spliced, zeroed};
ghost use Rattle.sn_overlay_change.specs.SeenLayers.{with_seen, with_loss};

use crate::states::kept;
use sn_limits::Kind;
use sn_overlay::{BLOCK_SIZE, Block, NodeChange, Overlay, SeenNode};
use std::alloc::{AllocError, Global};

// Nothing changed yet, with room for so many nodes, names and blocks.
pub(crate) fn with_room(
    alloc: Global,
    nodes: usize,
    names: usize,
    blocks: usize,
) -> Result<Overlay, AllocError>
    ensures layer { IfOk result (λ overlay. layer_of overlay ≡ no_changes) }
    ensures room { IfOk result (λ overlay. HasRoom overlay (record { nodes = nodes; names = names; blocks = blocks })) }
{
    let mut overlay = Overlay::new(alloc);
    overlay.reserve(nodes, names, blocks)?;
    Ok(overlay)
}

// A directory of which a name changes.
pub(crate) fn touch(overlay: &mut Overlay, number: u16, seen: Option<SeenNode>)
    requires { HasRoom overlay.old (record { nodes = 1; names = 0; blocks = 0 }) }
    ensures layer { layer_of overlay.new ≡ with_seen number (λ state. state) (layer_of overlay.old) seen }
    ensures taken { TakesRoom overlay.old overlay.new (record { nodes = 1; names = 0; blocks = 0 }) }
{
    if let Some(seen) = seen {
        overlay.set_node(number, NodeChange::Changed(kept(seen)));
    }
}

// A file with one more name.
pub(crate) fn add_name(overlay: &mut Overlay, number: u16, seen: Option<SeenNode>)
    requires { HasRoom overlay.old (record { nodes = 1; names = 0; blocks = 0 }) }
    ensures layer { IfSome seen (λ it. it.links + 1 < 2 ^ 16) → layer_of overlay.new ≡ with_seen number one_name_more (layer_of overlay.old) seen }
    ensures taken { TakesRoom overlay.old overlay.new (record { nodes = 1; names = 0; blocks = 0 }) }
{
    if let Some(seen) = seen {
        let mut state = kept(seen);
        state.links = state.links.saturating_add(1);
        overlay.set_node(number, NodeChange::Changed(state));
    }
}

// What had a name and loses it: a directory is removed, and a file stays.
pub(crate) fn lose_name(overlay: &mut Overlay, number: u16, seen: Option<SeenNode>)
    requires { HasRoom overlay.old (record { nodes = 1; names = 0; blocks = 0 }) }
    ensures layer { layer_of overlay.new ≡ with_loss number (layer_of overlay.old) seen }
    ensures taken { TakesRoom overlay.old overlay.new (record { nodes = 1; names = 0; blocks = 0 }) }
{
    let Some(seen) = seen else {
        return;
    };
    let change = match seen.kind {
        Kind::Directory => NodeChange::Gone { by_close: false },
        Kind::File => {
            let mut state = kept(seen);
            state.links = state.links.saturating_sub(1);
            NodeChange::Changed(state)
        }
    };
    overlay.set_node(number, change);
}

// Puts bytes into a block, from an offset on.
pub(crate) fn splice(block: &mut Block, from: usize, bytes: &[u8])
    requires { from + length bytes.now ≤ 4096 }
    ensures { block.new ≡ spliced from bytes.now block.old }
{
    block[from..from + bytes.len()].copy_from_slice(bytes);
}

// Puts zeros into a block, from an offset on.
pub(crate) fn zero_from(block: &mut Block, from: usize)
    requires { from ≤ 4096 }
    ensures { block.new ≡ zeroed from block.old }
{
    block[from..BLOCK_SIZE].fill(0);
}

pub(crate) fn boxed(alloc: Global, block: Block) -> Result<Box<Block>, AllocError>
    ensures { IfOk result (λ it. it.value ≡ block) }
{
    Ok(Box::new(alloc, block)?)
}
