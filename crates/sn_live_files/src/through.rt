ghost use Rattle.std.specs.Prelude.{◌≡◌};
ghost use Rattle.std.specs.Option.{option_copied};
ghost use Rattle.sn_overlay.specs.Layers.{hides_names};
ghost use Rattle.sn_overlay.specs.Seen.{shown_state};
ghost use Rattle.sn_live_files.specs.Known.{attributes_of};

use crate::bytes::gathered_from;
use crate::merge::merged;
use crate::{HasContents, HasSnapshots};
use sn_acl::Acl;
use sn_core_decide_rules::FileFault;
use sn_limits::SnapshotName;
use sn_model::{Link, Names};
use sn_overlay::{NodeChange, NodeState, Through};
use sn_walk::Attributes;
use std::alloc::{AllocError, Global};

// Whether the names that a directory had below aren't seen.
fn hides_names(change: Option<&NodeChange>) -> bool
    ensures { result ≡ hides_names (option_copied change.entry) }
{
    match change {
        None => false,
        Some(NodeChange::Gone { .. }) => true,
        Some(NodeChange::Changed(state)) => state.fresh,
    }
}

// What a walk learns of a node that changed.
fn attributes_of(state: &NodeState) -> Attributes
    ensures { result ≡ attributes_of (shown_state state.now) }
{
    let ownership = &state.ownership;
    Attributes {
        kind: state.kind,
        set_gid: ownership.set_gid,
        sticky: ownership.sticky,
        owner: ownership.owner,
        group: ownership.group,
        acl: ownership.acl.copy(),
        links: state.links,
        size: state.size,
    }
}

impl<'a, B: HasContents> HasContents for Through<'a, B> {
    fn attributes(&mut self, number: u16) -> Result<Option<Attributes>, B::Fault> {
        match self.overlay.node(number) {
            Some(NodeChange::Gone { .. }) => Ok(None),
            Some(NodeChange::Changed(state)) => Ok(Some(attributes_of(state))),
            None => self.below.attributes(number),
        }
    }

    fn read(
        &mut self,
        alloc: Global,
        number: u16,
        offset: u64,
        most: usize,
    ) -> Result<Vec<u8>, FileFault<B::Fault>> {
        match self.overlay.node(number) {
            Some(_) => gathered_from(self, alloc, number, offset, most),
            None => self.below.read(alloc, number, offset, most),
        }
    }

    fn names(
        &mut self,
        alloc: Global,
        directory: u16,
    ) -> Result<Vec<(Link, u16)>, FileFault<B::Fault>> {
        let changed = self.overlay.names_of(directory);
        let below = if hides_names(self.overlay.node(directory)) {
            Vec::new(alloc)
        } else {
            self.below.names(alloc, directory)?
        };
        Ok(merged(alloc, changed, below)?)
    }
}

// An overlay changes nothing of a frozen tree.
impl<'a, B: HasSnapshots> HasSnapshots for Through<'a, B> {
    ghost frozen = { λ s. B.frozen s.below.now };

    ghost holds_frozen = { λ s. B.holds_frozen s.below.now };

    fn has_snapshot(&self, name: &SnapshotName) -> bool {
        self.below.has_snapshot(name)
    }

    fn snapshots(&self, alloc: Global) -> Result<Names, AllocError> {
        self.below.snapshots(alloc)
    }

    fn frozen_node(
        &mut self,
        snapshot: &SnapshotName,
        number: u16,
    ) -> Result<Option<Attributes>, B::Fault> {
        self.below.frozen_node(snapshot, number)
    }

    fn frozen_link(
        &mut self,
        snapshot: &SnapshotName,
        directory: u16,
        name: &[u8],
    ) -> Result<Option<u16>, B::Fault> {
        self.below.frozen_link(snapshot, directory, name)
    }

    fn frozen_default_acl(
        &mut self,
        snapshot: &SnapshotName,
        number: u16,
    ) -> Result<Option<Acl>, B::Fault> {
        self.below.frozen_default_acl(snapshot, number)
    }

    fn frozen_size(&mut self, snapshot: &SnapshotName, number: u16) -> Result<u64, B::Fault> {
        self.below.frozen_size(snapshot, number)
    }

    fn frozen_read(
        &mut self,
        alloc: Global,
        snapshot: &SnapshotName,
        number: u16,
        offset: u64,
        most: usize,
    ) -> Result<Vec<u8>, FileFault<B::Fault>> {
        self.below
            .frozen_read(alloc, snapshot, number, offset, most)
    }

    fn frozen_names(
        &mut self,
        alloc: Global,
        snapshot: &SnapshotName,
        directory: u16,
    ) -> Result<Names, FileFault<B::Fault>> {
        self.below.frozen_names(alloc, snapshot, directory)
    }

    fn frozen_nameless(&mut self, snapshot: &SnapshotName) -> Result<u32, B::Fault> {
        self.below.frozen_nameless(snapshot)
    }

    ghost frozen_stay = { λ u v told p. B.frozen_stay u.below.now v.below.now told p.0 };

    ghost frozen_hold = { λ u v p. B.frozen_hold u.below.now v.below.now p.0 };
}
