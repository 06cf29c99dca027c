ghost use Rattle.sn_limits.specs.Versions.{limits_written};

use crate::reads::{default_acl, room_for_name};
use sn_acl::Acl;
use sn_applies::NamedTree;
use sn_core_decide_rules::{CallView, MoveView};
use sn_limits::{Limits, SnapshotName};
use sn_live_files::{HasContents, HasSnapshots};
use sn_model::{Errno, Refusal};
use sn_number_table::NumberTable;
use sn_walk::{Attributes, Failure, Home, TreeView};

/// The live tree and the frozen ones beside it as walks and decisions see them, with the table of the live tree's
/// numbers. What a look-up reads, and how it can fail, is the tree's. It is made by a function that is lent the tree.
///
/// ```text
/// let mut view = LiveView { tree, numbers };
/// ```
///
/// Proved: A tree that changes can be tried on, with a table of its numbers and with frozen trees beside it, is a view of
/// the live tree and the frozen ones: each look-up of a walk or a decision, the names of snapshots, and whether a directory
/// may get another name are the model's.
/// Proved: Where that tree lists names, it is a view of their files too: how many bytes a file has, those from an offset on,
/// and the names that a directory is listed with, that of snapshots too, are the model's.
/// Proved: No look-up changes what is seen, and a fault is one of the tree.
#[derive(Drop)]
pub struct LiveView<'a, T> {
    pub tree: &'a mut T,
    pub numbers: &'a NumberTable,
}

impl<'a, T: NamedTree + HasContents + HasSnapshots> TreeView for LiveView<'a, T> {
    ghost use Rattle.std.specs.Prelude.{◌≡◌, IsTrue};
    ghost use Rattle.std.proofs.Common.{refl, ◌∙◌};
    ghost use Rattle.sn_model.specs.World.{viewed_trees};
    ghost use Rattle.sn_live_view.specs.Live.{IsNumbered, live_trees};

    type Fault = T::Fault;

    ghost is_told = { T.is_told };

    ghost shows = { λ v. viewed_trees (live_trees (T.shows v.tree.now) (T.frozen v.tree.now)) };

    ghost holds = { λ v. T.holds v.tree.now × T.holds_frozen v.tree.now × (IsTrue T.is_told → IsNumbered (T.shows v.tree.now) v.numbers.now) };

    // the tree is the same one, and shows the same; so does the table
    ghost follows = { λ u v. T.follows u.tree.now v.tree.now × (v.tree.ghost_name ≡ u.tree.ghost_name)
        × (IsTrue T.is_told → T.shows v.tree.now ≡ T.shows u.tree.now) × (v.numbers.now ≡ u.numbers.now) };

    // look-ups leave no trace
    ghost looked_up = { λ looks u v. Unit {0} };

    ghost causes = { λ u v f. T.causes u.tree.now v.tree.now f };

    fn node(&mut self, home: &Home, number: u16) -> Result<Option<Attributes>, T::Fault> {
        match home {
            Home::Live => self.tree.attributes(number),
            Home::Frozen(snapshot) => self.tree.frozen_node(snapshot, number),
        }
    }

    fn link(&mut self, home: &Home, directory: u16, name: &[u8]) -> Result<Option<u16>, T::Fault> {
        match home {
            Home::Live => self.tree.number(directory, name),
            Home::Frozen(snapshot) => self.tree.frozen_link(snapshot, directory, name),
        }
    }

    fn default_acl(&mut self, home: &Home, number: u16) -> Result<Option<Acl>, T::Fault> {
        match home {
            Home::Live => default_acl(self.tree, number),
            Home::Frozen(snapshot) => self.tree.frozen_default_acl(snapshot, number),
        }
    }

    fn has_snapshot(&mut self, name: &SnapshotName) -> Result<bool, T::Fault> {
        Ok(self.tree.has_snapshot(name))
    }

    ghost follows_itself = { λ v. (T.follows_itself v.tree.now, refl, λ told. refl, refl) };

    ghost follows_on = { λ u v w p q. (T.follows_on u.tree.now v.tree.now w.tree.now p.0 q.0, q.1 ∙ p.1, λ told. q.2 told ∙ p.2 told, q.3 ∙ p.3) };

    ghost looked_up_none = { λ v. tt };

    ghost looked_up_more = { λ looks more u v w p q. tt };

    ghost causes_later = { λ u v w f p q. T.causes_later u.tree.now v.tree.now w.tree.now f p.0 q };
}

impl<'a, T: NamedTree + HasContents + HasSnapshots> CallView for LiveView<'a, T> {
    ghost use Rattle.std.proofs.Common.{ap, ap₂};
    ghost use Rattle.sn_model.specs.Seen.{seen_names};
    ghost use Rattle.sn_model.specs.Tests.{has_room};
    ghost use Rattle.sn_live_view.specs.Live.{live_trees};

    ghost room = { λ v. has_room limits_written (T.shows v.tree.now) };

    fn has_room(&mut self, directory: u16) -> Result<(), Failure<Refusal, T::Fault>> {
        if !self.numbers.has_free(&Limits::WRITTEN) {
            return Err(Failure::Refused(Refusal::plain(Errno::Elimit)));
        }
        room_for_name(self.tree, directory)
    }

    ghost names = { λ v. seen_names limits_written (live_trees (T.shows v.tree.now) (T.frozen v.tree.now)) };

    fn has_room_for_name(&mut self, directory: u16) -> Result<(), Failure<Refusal, T::Fault>> {
        room_for_name(self.tree, directory)
    }

    fn is_empty(&mut self, directory: u16) -> Result<bool, T::Fault> {
        match self.tree.names_in(directory) {
            Ok(names) => Ok(names == 0),
            Err(fault) => Err(fault),
        }
    }

    ghost room_stays = { λ u v told p. ap (has_room limits_written) (p.2 told) };

    ghost names_stay = { λ u v told p. ap₂ (λ tree frozen. seen_names limits_written (live_trees tree frozen)) (p.2 told) (T.frozen_stay u.tree.now v.tree.now told p.0) };
}

impl<'a, T: NamedTree + HasContents + HasSnapshots> MoveView for LiveView<'a, T> {
    fn is_below(&mut self, top: u16, directory: u16) -> Result<bool, T::Fault> {
        self.tree.is_below(top, directory)
    }
}
