ghost use Rattle.std.specs.Prelude.{◌≡◌};
ghost use Rattle.std.specs.Option.{option_copied};
ghost use Rattle.sn_overlay.specs.Layers.{hides_block, hides_names};

use sn_limits::{BLOCK_SIZE, Kind};
use sn_model::Ownership;

/// What became of a node since an overlay began.
#[derive(Drop)]
pub enum NodeChange {
    /// It is gone, with its names and blocks.
    Gone {
        /// Whether a close or logout dropped it. Then its number stays in use.
        by_close: bool,
    },
    /// It is there as this.
    Changed(NodeState),
}

/// A node that changed, without its blocks and names.
#[derive(Drop)]
pub struct NodeState {
    pub kind: Kind,
    pub ownership: Ownership,
    /// How many names a file has. A directory has 1.
    pub links: u16,
    /// The bytes of a file. A directory has 0.
    pub size: u64,
    /// The least size since the overlay began: what was past it below is no longer seen.
    pub cut: u64,
    /// Whether it was made since the overlay began. Then nothing of what is below is seen.
    pub fresh: bool,
    /// Whether one of its ACLs may differ from what is below.
    pub acl_changed: bool,
}

/// A node as it is seen, without its bytes and names.
#[derive(Drop)]
pub struct SeenNode {
    pub kind: Kind,
    pub ownership: Ownership,
    /// How many names a file has. A directory has 1.
    pub links: u16,
    /// The bytes of a file. A directory has 0.
    pub size: u64,
}

impl NodeState {
    ghost use Rattle.sn_overlay.specs.Merges.{state_over};
    ghost use Rattle.sn_overlay.specs.Seen.{shown_state};

    // A node as it is seen through what became of it.
    pub(crate) fn shown(&self) -> SeenNode
        ensures { result ≡ shown_state self.now }
    {
        SeenNode {
            kind: self.kind,
            ownership: self.ownership.copy(),
            links: self.links,
            size: self.size,
        }
    }

    fn copy(&self) -> NodeState
        ensures { result ≡ self.now }
    {
        NodeState {
            kind: self.kind,
            ownership: self.ownership.copy(),
            links: self.links,
            size: self.size,
            cut: self.cut,
            fresh: self.fresh,
            acl_changed: self.acl_changed,
        }
    }

    // This state, where the older one is below: the cut is the lesser.
    fn over(mut self, older: &NodeState) -> NodeState
        ensures { result ≡ state_over older.now self }
    {
        self.cut = older.cut.min(self.cut);
        self.fresh = older.fresh || self.fresh;
        self.acl_changed = older.acl_changed || self.acl_changed;
        self
    }
}

impl NodeChange {
    ghost use Rattle.sn_overlay.specs.Merges.{change_over};

    /// A copy, which takes no memory.
    pub fn copy(&self) -> NodeChange
        ensures { result ≡ self.now }
    {
        match self {
            NodeChange::Gone { by_close } => NodeChange::Gone {
                by_close: *by_close,
            },
            NodeChange::Changed(state) => NodeChange::Changed(state.copy()),
        }
    }

    // This change as one with an older one below it. What was made anew stays as it is.
    pub(crate) fn over(self, older: Option<&NodeChange>) -> NodeChange
        ensures { result ≡ change_over (option_copied older.entry) self }
    {
        match (older, self) {
            (Some(NodeChange::Changed(older)), NodeChange::Changed(newer)) => {
                if newer.fresh {
                    NodeChange::Changed(newer)
                } else {
                    NodeChange::Changed(newer.over(older))
                }
            }
            (_, newer) => newer,
        }
    }
}

// Whether the names that a number had below are hidden.
pub(crate) fn hides_names(change: Option<&NodeChange>) -> bool
    ensures { result ≡ hides_names (option_copied change.entry) }
{
    match change {
        None => false,
        Some(NodeChange::Gone { .. }) => true,
        Some(NodeChange::Changed(state)) => state.fresh,
    }
}

// Whether a block that a number had below is hidden.
pub(crate) fn hides_block(change: Option<&NodeChange>, index: u64) -> bool
    ensures { result ≡ hides_block (option_copied change.entry) index }
{
    match change {
        Some(NodeChange::Changed(state)) => {
            state.fresh || state.cut <= index.saturating_mul(BLOCK_SIZE as u64)
        }
        gone => gone.is_some(),
    }
}
