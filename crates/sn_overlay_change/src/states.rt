//! Nodes as the overlay of a change has them.
ghost use Rattle.std.specs.Prelude.{◌≡◌};
ghost use Rattle.sn_overlay_change.specs.ChangeLayers.{new_state, size_state, written_state, with_ownership};
ghost use Rattle.sn_overlay_change.specs.SeenLayers.{kept_state};

use sn_limits::Kind;
use sn_model::Ownership;
use sn_overlay::{NodeState, SeenNode};

// A node of which nothing changes.
pub(crate) fn kept(seen: SeenNode) -> NodeState
    ensures { result ≡ kept_state seen }
{
    NodeState {
        kind: seen.kind,
        ownership: seen.ownership,
        links: seen.links,
        size: seen.size,
        cut: seen.size,
        fresh: false,
        acl_changed: false,
    }
}

// A node that is made.
pub(crate) fn made(kind: Kind, ownership: &Ownership) -> NodeState
    ensures { result ≡ new_state kind ownership.now }
{
    NodeState {
        kind,
        ownership: ownership.copy(),
        links: 1,
        size: 0,
        cut: 0,
        fresh: true,
        acl_changed: true,
    }
}

pub(crate) fn owned(mut state: NodeState, ownership: &Ownership) -> NodeState
    ensures { result ≡ with_ownership ownership.now state }
{
    state.ownership = ownership.copy();
    state.acl_changed = true;
    state
}

// A file that is cut off, or made longer.
pub(crate) fn resized(mut state: NodeState, size: u64) -> NodeState
    ensures { result ≡ size_state size state }
{
    state.cut = size.min(state.size);
    state.size = size;
    state
}

// A file with bytes up to an end, at least.
pub(crate) fn written(mut state: NodeState, end: u64) -> NodeState
    ensures { result ≡ written_state end state }
{
    state.size = state.size.max(end);
    state
}
