ghost use Rattle.sn_limits.specs.Versions.{limits_written};
ghost use Rattle.sn_model.specs.NameTree.{IsTree};
ghost use Rattle.sn_numbers.specs.Live.{live_of};

use sn_acl::Acl;
use sn_core_decide_rules::{CallView, FileFault, FileView, MoveView};
use sn_limits::{Limits, SnapshotName};
use sn_model::{Names, Refusal};
use sn_numbers::NumberedTree;
use sn_walk::{Attributes, Failure, Home, Object, TreeView};
use std::alloc::Global;
use std::convert::Infallible;

/// The live tree in memory as walks and decisions see it; there are no snapshots. No look-up fails but
/// for memory, which those take that answer bytes or names.
#[derive(Drop)]
pub(crate) struct PlainView<'a> {
    pub tree: &'a NumberedTree,
    ghost whole: { ∥ IsTree limits_written (live_of tree.now) ∥₁ },
}

impl<'a> TreeView for PlainView<'a> {
    ghost use Rattle.std.specs.Prelude.{◌≡◌, true};
    ghost use Rattle.std.proofs.Common.{refl, ◌∙◌};
    ghost use Rattle.sn_model.specs.World.{viewed_trees};
    ghost use Rattle.sn_plain_world.specs.Plain.{plain_trees};

    type Fault = Infallible;

    ghost is_told = { true };

    ghost shows = { λ v. viewed_trees (plain_trees (live_of v.tree.now)) };

    ghost holds = { λ v. Unit {0} };

    ghost follows = { λ u v. v ≡ u };

    // look-ups leave no trace
    ghost looked_up = { λ looks u v. Unit {0} };

    // no look-up has a fault
    ghost causes = { λ u v f. ⊥ };

    fn node(&mut self, home: &Home, number: u16) -> Result<Option<Attributes>, Infallible> {
        match home {
            Home::Live => Ok(self.tree.tree().attributes(number)),
            Home::Frozen(_) => Ok(None),
        }
    }

    fn link(
        &mut self,
        home: &Home,
        directory: u16,
        name: &[u8],
    ) -> Result<Option<u16>, Infallible> {
        match home {
            Home::Live => Ok(self.tree.tree().link(directory, name)),
            Home::Frozen(_) => Ok(None),
        }
    }

    fn default_acl(&mut self, home: &Home, number: u16) -> Result<Option<Acl>, Infallible> {
        match home {
            Home::Live => Ok(self.tree.tree().default_acl(number)),
            Home::Frozen(_) => Ok(None),
        }
    }

    fn has_snapshot(&mut self, _name: &SnapshotName) -> Result<bool, Infallible> {
        Ok(false)
    }

    ghost follows_itself = { λ v. refl };

    ghost follows_on = { λ u v w p q. q ∙ p };

    ghost looked_up_none = { λ v. tt };

    ghost looked_up_more = { λ looks more u v w p q. tt };

    ghost causes_later = { λ u v w f p q. q };
}

impl<'a> CallView for PlainView<'a> {
    ghost use Rattle.std.proofs.Common.{ap};
    ghost use Rattle.sn_model.specs.Seen.{seen_names};
    ghost use Rattle.sn_model.specs.Tests.{has_room};
    ghost use Rattle.sn_plain_world.specs.Plain.{plain_trees};

    ghost room = { λ v. has_room limits_written (live_of v.tree.now) };

    fn has_room(&mut self, directory: u16) -> Result<(), Failure<Refusal, Infallible>> {
        match self.tree.has_room(&Limits::WRITTEN, directory) {
            Ok(_) => Ok(()),
            Err(refusal) => Err(Failure::Refused(refusal)),
        }
    }

    ghost names = { λ v. seen_names limits_written (plain_trees (live_of v.tree.now)) };

    fn has_room_for_name(&mut self, directory: u16) -> Result<(), Failure<Refusal, Infallible>> {
        match self
            .tree
            .tree()
            .has_room_for_name(&Limits::WRITTEN, directory)
        {
            Ok(()) => Ok(()),
            Err(refusal) => Err(Failure::Refused(refusal)),
        }
    }

    fn is_empty(&mut self, directory: u16) -> Result<bool, Infallible> {
        Ok(self.tree.tree().names_in(directory) == 0)
    }

    ghost room_stays = { λ u v told e. ap (λ w. has_room limits_written (live_of w.tree.now)) e };

    ghost names_stay = { λ u v told e. ap (λ w. seen_names limits_written (plain_trees (live_of w.tree.now))) e };
}

impl<'a> MoveView for PlainView<'a> {
    fn is_below(&mut self, top: u16, directory: u16) -> Result<bool, Infallible> {
        Ok(self.tree.tree().is_below(top, directory))
    }
}

impl<'a> FileView for PlainView<'a> {
    ghost use Rattle.std.proofs.Common.{ap};
    ghost use Rattle.sn_plain_world.specs.Plain.{plain_trees};
    ghost use Rattle.sn_core_decide_rules.specs.Shown.{bytes_in};

    ghost bytes = { λ v. bytes_in (plain_trees (live_of v.tree.now)) };

    fn knows_snapshot(&self, _name: &SnapshotName) -> bool {
        false
    }

    fn size(&mut self, home: &Home, number: u16) -> Result<u64, Infallible> {
        match home {
            Home::Live => Ok(self.tree.tree().size(number)),
            Home::Frozen(_) => Ok(0),
        }
    }

    fn read(
        &mut self,
        alloc: Global,
        home: &Home,
        number: u16,
        offset: u64,
        most: usize,
    ) -> Result<Vec<u8>, FileFault<Infallible>> {
        match home {
            Home::Live => {
                // It bounds where its bytes end.
                let _size = self.tree.tree().size(number);
                match self.tree.tree().read(alloc, number, offset, most)? {
                    Some(bytes) => Ok(bytes),
                    None => Ok(Vec::new(alloc)),
                }
            }
            Home::Frozen(_) => Ok(Vec::new(alloc)),
        }
    }

    fn listed(&mut self, alloc: Global, object: &Object) -> Result<Names, FileFault<Infallible>> {
        let Object::Node { home, number } = object else {
            return Ok(Names::new(Vec::new(alloc)));
        };
        match home {
            Home::Live => Ok(self.tree.tree().names(alloc, *number)?),
            Home::Frozen(_) => Ok(Names::new(Vec::new(alloc))),
        }
    }

    fn count_nameless(&mut self, _snapshot: &SnapshotName) -> Result<u32, Infallible> {
        Ok(0)
    }

    ghost bytes_stay = { λ u v told e. ap (λ w. bytes_in (plain_trees (live_of w.tree.now))) e };
}
