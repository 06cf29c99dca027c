use crate::Unread;
use sn_acl::Acl;
use sn_core_decide_rules::{CallView, FileFault, FileView, MoveView};
use sn_limits::SnapshotName;
use sn_live::LiveTree;
use sn_live_files::HasSnapshots;
use sn_model::{Names, Refusal};
use sn_walk::{Attributes, Failure, Home, Object, TreeView};
use std::alloc::Global;

/// The live tree of a root and the frozen ones, of which nothing is read: each look-up fails. Whatever is decided over
/// it asks nothing of the trees.
#[derive(Drop)]
pub(crate) struct UnreadView<'a, B> {
    pub root: &'a B,
    pub live: &'a LiveTree,
}

impl<'a, B: HasSnapshots> TreeView for UnreadView<'a, B> {
    ghost use Rattle.std.specs.Prelude.{◌≡◌, true};
    ghost use Rattle.std.proofs.Common.{refl, ◌∙◌};
    ghost use Rattle.sn_live.specs.Live.{shown_of};
    ghost use Rattle.sn_live_view.specs.Live.{live_trees};
    ghost use Rattle.sn_model.specs.World.{viewed_trees};

    type Fault = Unread;

    ghost is_told = { true };

    ghost shows = { λ v. viewed_trees (live_trees (shown_of v.live.now (B.shows v.root.now)) (B.frozen v.root.now)) };

    ghost holds = { λ v. Unit {0} };

    ghost follows = { λ u v. v ≡ u };

    // look-ups leave no trace
    ghost looked_up = { λ looks u v. Unit {0} };

    // none is made
    ghost causes = { λ u v f. Unit {0} };

    fn node(&mut self, _home: &Home, _number: u16) -> Result<Option<Attributes>, Unread> {
        Err(Unread)
    }

    fn link(&mut self, _home: &Home, _directory: u16, _name: &[u8]) -> Result<Option<u16>, Unread> {
        Err(Unread)
    }

    fn default_acl(&mut self, _home: &Home, _number: u16) -> Result<Option<Acl>, Unread> {
        Err(Unread)
    }

    fn has_snapshot(&mut self, _name: &SnapshotName) -> Result<bool, Unread> {
        Err(Unread)
    }

    ghost follows_itself = { λ v. refl };

    ghost follows_on = { λ u v w p q. q ∙ p };

    ghost looked_up_none = { λ v. tt };

    ghost looked_up_more = { λ looks more u v w p q. tt };

    ghost causes_later = { λ u v w f p q. tt };
}

impl<'a, B: HasSnapshots> CallView for UnreadView<'a, B> {
    ghost use Rattle.std.proofs.Common.{ap};
    ghost use Rattle.sn_limits.specs.Versions.{limits_written};
    ghost use Rattle.sn_live.specs.Live.{shown_of};
    ghost use Rattle.sn_live_view.specs.Live.{live_trees};
    ghost use Rattle.sn_model.specs.Seen.{seen_names};
    ghost use Rattle.sn_model.specs.Tests.{has_room};

    ghost room = { λ v. has_room limits_written (shown_of v.live.now (B.shows v.root.now)) };

    fn has_room(&mut self, _directory: u16) -> Result<(), Failure<Refusal, Unread>> {
        Err(Failure::Fault(Unread))
    }

    ghost names = { λ v. seen_names limits_written (live_trees (shown_of v.live.now (B.shows v.root.now)) (B.frozen v.root.now)) };

    fn has_room_for_name(&mut self, _directory: u16) -> Result<(), Failure<Refusal, Unread>> {
        Err(Failure::Fault(Unread))
    }

    fn is_empty(&mut self, _directory: u16) -> Result<bool, Unread> {
        Err(Unread)
    }

    ghost room_stays = { λ u v told e. ap (λ w. has_room limits_written (shown_of w.live.now (B.shows w.root.now))) e };

    ghost names_stay = { λ u v told e. ap (λ w. seen_names limits_written (live_trees (shown_of w.live.now (B.shows w.root.now)) (B.frozen w.root.now))) e };
}

impl<'a, B: HasSnapshots> MoveView for UnreadView<'a, B> {
    fn is_below(&mut self, _top: u16, _directory: u16) -> Result<bool, Unread> {
        Err(Unread)
    }
}

impl<'a, B: HasSnapshots> FileView for UnreadView<'a, B> {
    ghost use Rattle.std.proofs.Common.{ap};
    ghost use Rattle.sn_core_decide_rules.specs.Shown.{bytes_in};
    ghost use Rattle.sn_live.specs.Live.{shown_of};
    ghost use Rattle.sn_live_view.specs.Live.{live_trees};

    ghost bytes = { λ v. bytes_in (live_trees (shown_of v.live.now (B.shows v.root.now)) (B.frozen v.root.now)) };

    fn knows_snapshot(&self, name: &SnapshotName) -> bool {
        self.root.has_snapshot(name)
    }

    fn size(&mut self, _home: &Home, _number: u16) -> Result<u64, Unread> {
        Err(Unread)
    }

    fn read(
        &mut self,
        _alloc: Global,
        _home: &Home,
        _number: u16,
        _offset: u64,
        _most: usize,
    ) -> Result<Vec<u8>, FileFault<Unread>> {
        Err(FileFault::View(Unread))
    }

    fn listed(&mut self, _alloc: Global, _object: &Object) -> Result<Names, FileFault<Unread>> {
        Err(FileFault::View(Unread))
    }

    fn count_nameless(&mut self, _snapshot: &SnapshotName) -> Result<u32, Unread> {
        Err(Unread)
    }

    ghost bytes_stay = { λ u v told e. ap (λ w. bytes_in (live_trees (shown_of w.live.now (B.shows w.root.now)) (B.frozen w.root.now))) e };
}
