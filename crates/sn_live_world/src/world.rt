ghost use Rattle.std.specs.FinMap as finite;
ghost use Rattle.std.specs.Prelude.{◌≡◌, ℕ, IfOk};
ghost use Rattle.sn_desc.specs.InUse.{live_in};
ghost use Rattle.sn_live.specs.Live as of_live;
ghost use Rattle.sn_model.specs.Tree.{Tree};
ghost use Rattle.sn_model.specs.World.{new_world};
ghost use Rattle.sn_model.specs.Settling.{nameless_in};
ghost use Rattle.sn_overlay.specs.Overlays.{layer_of};

use sn_desc::Sessions;
use sn_live::LiveTree;
use sn_overlay::Overlay;
use std::alloc::{AllocError, Global};

/// The live tree of a root, with what changed since, and who is logged in.
#[derive(Drop)]
pub struct LiveWorld {
    pub(crate) live: LiveTree,
    pub(crate) sessions: Sessions,
}

impl LiveWorld {
    ghost use Rattle.sn_live_world.specs.World.{HasDrops, IsOver, changes_of, descriptors_of, kept_of, kept_since_of, nameless_of, point_of, world_over};

    /// A live tree, and nobody is logged in. A tree with a file that has no name has to be settled before calls
    /// are answered: nobody has that file open.
    pub fn over(alloc: Global, live: LiveTree) -> Result<LiveWorld, AllocError>
        ensures world { (below : Tree) → IfOk result (λ w. world_over w below ≡ record new_world { live = of_live.shown_of live below }) }
        ensures over { (below : Tree) → of_live.IsLive live below → IfOk result (λ w. IsOver w below) }
        ensures kept { IfOk result (λ w. (n : ℕ) → kept_of w n ≡ of_live.kept_back_of live n) }
        ensures since { IfOk result (λ w. (n : ℕ) → kept_since_of w n ≡ of_live.kept_since_of live n) }
        ensures changes { IfOk result (λ w. changes_of w ≡ of_live.changes_of live) }
        ensures point { IfOk result (λ w. point_of w ≡ of_live.point_of live) }
        ensures descriptors { IfOk result (λ w. descriptors_of w ≡ finite.empty) }
        ensures counted { IfOk result (λ w. nameless_of w ≡ of_live.count_of live) }
        ensures drops { (drops : ℕ) → of_live.HasDrops live drops → IfOk result (λ w. HasDrops w drops) }
    {
        let sessions = Sessions::new(alloc)?;
        Ok(LiveWorld { live, sessions })
    }

    /// What changed since the consistency point in progress began, or since the root where none is.
    pub fn changes(&self) -> &Overlay
        ensures { layer_of result.now ≡ changes_of self.now }
    {
        self.live.changes()
    }

    /// How many descriptors have live files. It is kept, and not counted anew.
    pub fn open_files(&self) -> u16
        ensures { result ≡ live_in (descriptors_of self.now) }
    {
        self.sessions.live()
    }

    /// How many live files have no name. It is kept, and not counted anew.
    ///
    /// Proved, also of `set_caller`: How many files have no name is known without a new count; no caller makes them more,
    /// whatever the device answers.
    pub fn nameless(&self) -> u32
        ensures exact { result ≡ nameless_of self.now }
        ensures tells { (below : Tree) → IsOver self.now below → result ≡ nameless_in (world_over self.now below).live }
    {
        self.live.nameless()
    }
}
