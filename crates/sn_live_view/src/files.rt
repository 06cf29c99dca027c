//! The bytes of files and the names of directories.
ghost use Rattle.std.specs.Prelude.{◌≡◌, ℕ, IfOk, map};
ghost use Rattle.sn_model.specs.declared.link.Link.{Link as TheLink};

use crate::LiveView;
use sn_applies::NamedTree;
use sn_core_decide_rules::{FileFault, FileView};
use sn_limits::SnapshotName;
use sn_live_files::{HasContents, HasSnapshots, size};
use sn_model::{Link, Names};
use sn_walk::{Home, Object};
use std::alloc::{AllocError, Global};

// The names alone, in their order.
fn names_alone(alloc: Global, links: Vec<(Link, u16)>) -> Result<Names, AllocError>
    ensures { IfOk result (λ names. names ≡ map (λ (e : TheLink × ℕ). e.0.name) links.items) }
{
    let mut names = Vec::with_capacity(alloc, links.len())?;
    for (link, _) in links {
        names.push(link.name)?;
    }
    Ok(Names::new(names))
}

impl<'a, T: NamedTree + HasContents + HasSnapshots> FileView for LiveView<'a, T> {
    ghost use Rattle.std.proofs.Common.{ap₂};
    ghost use Rattle.sn_core_decide_rules.specs.Shown.{bytes_in};
    ghost use Rattle.sn_live_view.specs.Live.{live_trees};

    ghost bytes = { λ v. bytes_in (live_trees (T.shows v.tree.now) (T.frozen v.tree.now)) };

    fn knows_snapshot(&self, name: &SnapshotName) -> bool {
        self.tree.has_snapshot(name)
    }

    fn size(&mut self, home: &Home, number: u16) -> Result<u64, T::Fault> {
        match home {
            Home::Live => size(self.tree, number),
            Home::Frozen(snapshot) => self.tree.frozen_size(snapshot, number),
        }
    }

    fn read(
        &mut self,
        alloc: Global,
        home: &Home,
        number: u16,
        offset: u64,
        most: usize,
    ) -> Result<Vec<u8>, FileFault<T::Fault>> {
        match home {
            Home::Live => self.tree.read(alloc, number, offset, most),
            Home::Frozen(snapshot) => self.tree.frozen_read(alloc, snapshot, number, offset, most),
        }
    }

    fn listed(&mut self, alloc: Global, object: &Object) -> Result<Names, FileFault<T::Fault>> {
        let Object::Node { home, number } = object else {
            return Ok(self.tree.snapshots(alloc)?);
        };
        match home {
            Home::Live => {
                let links = self.tree.names(alloc, *number)?;
                Ok(names_alone(alloc, links)?)
            }
            Home::Frozen(snapshot) => self.tree.frozen_names(alloc, snapshot, *number),
        }
    }

    fn count_nameless(&mut self, snapshot: &SnapshotName) -> Result<u32, T::Fault> {
        self.tree.frozen_nameless(snapshot)
    }

    ghost bytes_stay = { λ u v told p. ap₂ (λ tree frozen. bytes_in (live_trees tree frozen)) (p.2 told) (T.frozen_stay u.tree.now v.tree.now told p.0) };
}
