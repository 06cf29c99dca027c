//! The frozen trees of a root's snapshots.
ghost use Rattle.std.specs.Prelude.{◌≡◌, IfOk, map};
ghost use Rattle.sn_dir.specs.declared.listings.ListedName.{ListedName as TheName};
ghost use Rattle.sn_rooted.specs.Roots.{file_in};
ghost use Rattle.sn_walk.specs.declared.object.Home.TheVariants.{Frozen};

use crate::RootedTree;
use crate::nameless::nameless_of;
use crate::rooted::fault_of;
use crate::seeing::seen_node;
use sn_acl::Acl;
use sn_core_decide_rules::FileFault;
use sn_device::Device;
use sn_dir::ListedName;
use sn_layout::{BlockTree, RootBody};
use sn_limits::SnapshotName;
use sn_live_files::HasSnapshots;
use sn_model::{Names, Word};
use sn_rooted::{attributes, default_acl, file_in, link, names, read};
use sn_tree_read::TreeFault;
use sn_walk::{Attributes, Home};
use std::alloc::{AllocError, Global};

// The inode file of a snapshot, `None` where none has the name.
fn frozen_file(root: &RootBody, snapshot: &SnapshotName) -> Option<BlockTree>
    ensures { result ≡ file_in root.now (Frozen snapshot.now) }
{
    file_in(root, &Home::Frozen(snapshot.copy()))
}

// Names of snapshots as an answer.
fn names_of(alloc: Global, snapshots: &[SnapshotName]) -> Result<Names, AllocError>
    ensures { IfOk result (λ names. names ≡ snapshots.now) }
{
    let mut names = Vec::with_capacity(alloc, snapshots.len())?;
    for name in snapshots {
        names.push(Word::new(alloc, name.as_bytes())?)?;
    }
    Ok(Names::new(names))
}

// The names of a directory without their numbers, as an answer.
fn names_alone(alloc: Global, listed: Vec<ListedName>) -> Result<Names, AllocError>
    ensures { IfOk result (λ names. names ≡ map (λ (listed : TheName). listed.name) listed.items) }
{
    let mut names = Vec::with_capacity(alloc, listed.len())?;
    for entry in listed {
        names.push(entry.name)?;
    }
    Ok(Names::new(names))
}

/// Proved: The tree of each snapshot is read on demand too, where the snapshots are sound: which there are and their names
/// in order, each node, name and default ACL, each byte of a file, the names of a directory, and how many files have no
/// name, as the root denotes them. Of a name that no snapshot has nothing is found.
impl<'a, D: Device> HasSnapshots for RootedTree<'a, D> {
    ghost use Rattle.std.specs.Prelude.{IsTrue};
    ghost use Rattle.sn_block.specs.Lending.{device_of};
    ghost use Rattle.sn_rooted.specs.Roots.{store_on, trees_at};
    ghost use Rattle.sn_rooted_tree.specs.FrozenLaws.{frozen-stay, sound-stay};
    ghost use Rattle.sn_rooted_tree.specs.Frozen.{AreSoundFrozen};

    ghost frozen = { λ v. (trees_at (store_on v.blocks.now) v.root.now).frozen };

    // where the device tells its bytes, each snapshot is sound
    ghost holds_frozen = { λ v. IsTrue D.tells_bytes → AreSoundFrozen (D.status (device_of v.blocks.now)).sectors (store_on v.blocks.now) v.root.now };

    fn has_snapshot(&self, name: &SnapshotName) -> bool {
        frozen_file(self.root, name).is_some()
    }

    fn snapshots(&self, alloc: Global) -> Result<Names, AllocError> {
        names_of(alloc, &sn_snap::list(&self.root.snapshots))
    }

    fn frozen_node(
        &mut self,
        snapshot: &SnapshotName,
        number: u16,
    ) -> Result<Option<Attributes>, TreeFault> {
        if let Some(fault) = self.fault {
            return Err(fault);
        }
        let Some(file) = frozen_file(self.root, snapshot) else {
            return Ok(None);
        };
        let answer = attributes(self.blocks, &self.root.limits, &file, number);
        self.fault = fault_of(&answer);
        answer
    }

    fn frozen_link(
        &mut self,
        snapshot: &SnapshotName,
        directory: u16,
        name: &[u8],
    ) -> Result<Option<u16>, TreeFault> {
        if let Some(fault) = self.fault {
            return Err(fault);
        }
        let Some(file) = frozen_file(self.root, snapshot) else {
            return Ok(None);
        };
        let answer = link(self.blocks, &self.root.limits, &file, directory, name);
        self.fault = fault_of(&answer);
        answer
    }

    fn frozen_default_acl(
        &mut self,
        snapshot: &SnapshotName,
        number: u16,
    ) -> Result<Option<Acl>, TreeFault> {
        if let Some(fault) = self.fault {
            return Err(fault);
        }
        let Some(file) = frozen_file(self.root, snapshot) else {
            return Ok(None);
        };
        let answer = default_acl(self.blocks, &self.root.limits, &file, number);
        self.fault = fault_of(&answer);
        answer
    }

    fn frozen_size(&mut self, snapshot: &SnapshotName, number: u16) -> Result<u64, TreeFault> {
        if let Some(fault) = self.fault {
            return Err(fault);
        }
        let Some(file) = frozen_file(self.root, snapshot) else {
            return Ok(0);
        };
        let answer = seen_node(self.blocks, &self.root.limits, &file, number);
        self.fault = fault_of(&answer);
        match answer {
            Ok(Some(node)) => Ok(node.size),
            Ok(None) => Ok(0),
            Err(fault) => Err(fault),
        }
    }

    fn frozen_read(
        &mut self,
        alloc: Global,
        snapshot: &SnapshotName,
        number: u16,
        offset: u64,
        most: usize,
    ) -> Result<Vec<u8>, FileFault<TreeFault>> {
        if let Some(fault) = self.fault {
            return Err(FileFault::View(fault));
        }
        let Some(file) = frozen_file(self.root, snapshot) else {
            return Ok(Vec::new(alloc));
        };
        let limits = &self.root.limits;
        let answer = read(alloc, self.blocks, limits, &file, number, offset, most);
        self.fault = fault_of(&answer);
        match answer {
            Ok(bytes) => Ok(bytes),
            Err(fault) => Err(FileFault::View(fault)),
        }
    }

    fn frozen_names(
        &mut self,
        alloc: Global,
        snapshot: &SnapshotName,
        directory: u16,
    ) -> Result<Names, FileFault<TreeFault>> {
        if let Some(fault) = self.fault {
            return Err(FileFault::View(fault));
        }
        let Some(file) = frozen_file(self.root, snapshot) else {
            return Ok(Names::new(Vec::new(alloc)));
        };
        let answer = names(alloc, self.blocks, &self.root.limits, &file, directory);
        self.fault = fault_of(&answer);
        match answer {
            Ok(names) => Ok(names_alone(alloc, names)?),
            Err(fault) => Err(FileFault::View(fault)),
        }
    }

    fn frozen_nameless(&mut self, snapshot: &SnapshotName) -> Result<u32, TreeFault> {
        if let Some(fault) = self.fault {
            return Err(fault);
        }
        let Some(file) = frozen_file(self.root, snapshot) else {
            return Ok(0);
        };
        let answer = nameless_of(self.blocks, &self.root.limits, &file);
        self.fault = fault_of(&answer);
        answer
    }

    ghost frozen_stay = { λ u v told p. frozen-stay D.tells_bytes (D.status (device_of u.blocks.now)) (D.status (device_of v.blocks.now))
        (D.disk (device_of u.blocks.now)) (D.disk (device_of v.blocks.now)) u.root.now v.root.now u.fault v.fault told p.0 };

    ghost frozen_hold = { λ u v p sound. sound-stay D.tells_bytes (D.status (device_of u.blocks.now)) (D.status (device_of v.blocks.now))
        (D.disk (device_of u.blocks.now)) (D.disk (device_of v.blocks.now)) u.root.now v.root.now u.fault v.fault p.0 sound };
}
