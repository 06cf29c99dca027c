use crate::{HasContents, HasSnapshots};
use sn_acl::Acl;
use sn_core_decide_rules::FileFault;
use sn_directories::{KeepsNames, LoggedTree};
use sn_limits::SnapshotName;
use sn_model::{Link, Names};
use sn_walk::Attributes;
use std::alloc::{AllocError, Global};

impl<'a, B: KeepsNames + HasContents> HasContents for LoggedTree<'a, B> {
    fn attributes(&mut self, number: u16) -> Result<Option<Attributes>, B::Fault> {
        self.shown.attributes(number)
    }

    fn read(
        &mut self,
        alloc: Global,
        number: u16,
        offset: u64,
        most: usize,
    ) -> Result<Vec<u8>, FileFault<B::Fault>> {
        self.shown.read(alloc, number, offset, most)
    }

    fn names(
        &mut self,
        alloc: Global,
        directory: u16,
    ) -> Result<Vec<(Link, u16)>, FileFault<B::Fault>> {
        self.shown.names(alloc, directory)
    }
}

impl<'a, B: KeepsNames + HasSnapshots> HasSnapshots for LoggedTree<'a, B> {
    ghost frozen = { λ v. B.frozen v.shown.below.now };

    ghost holds_frozen = { λ v. B.holds_frozen v.shown.below.now };

    fn has_snapshot(&self, name: &SnapshotName) -> bool {
        self.shown.has_snapshot(name)
    }

    fn snapshots(&self, alloc: Global) -> Result<Names, AllocError> {
        self.shown.snapshots(alloc)
    }

    fn frozen_node(
        &mut self,
        snapshot: &SnapshotName,
        number: u16,
    ) -> Result<Option<Attributes>, B::Fault> {
        self.shown.frozen_node(snapshot, number)
    }

    fn frozen_link(
        &mut self,
        snapshot: &SnapshotName,
        directory: u16,
        name: &[u8],
    ) -> Result<Option<u16>, B::Fault> {
        self.shown.frozen_link(snapshot, directory, name)
    }

    fn frozen_default_acl(
        &mut self,
        snapshot: &SnapshotName,
        number: u16,
    ) -> Result<Option<Acl>, B::Fault> {
        self.shown.frozen_default_acl(snapshot, number)
    }

    fn frozen_size(&mut self, snapshot: &SnapshotName, number: u16) -> Result<u64, B::Fault> {
        self.shown.frozen_size(snapshot, number)
    }

    fn frozen_read(
        &mut self,
        alloc: Global,
        snapshot: &SnapshotName,
        number: u16,
        offset: u64,
        most: usize,
    ) -> Result<Vec<u8>, FileFault<B::Fault>> {
        self.shown
            .frozen_read(alloc, snapshot, number, offset, most)
    }

    fn frozen_names(
        &mut self,
        alloc: Global,
        snapshot: &SnapshotName,
        directory: u16,
    ) -> Result<Names, FileFault<B::Fault>> {
        self.shown.frozen_names(alloc, snapshot, directory)
    }

    fn frozen_nameless(&mut self, snapshot: &SnapshotName) -> Result<u32, B::Fault> {
        self.shown.frozen_nameless(snapshot)
    }

    ghost frozen_stay = { λ u v told p. B.frozen_stay u.shown.below.now v.shown.below.now told p.0 };

    ghost frozen_hold = { λ u v p. B.frozen_hold u.shown.below.now v.shown.below.now p.0 };
}
