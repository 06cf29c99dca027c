//! Consistency points of the live tree.
ghost use Rattle.std.specs.Prelude.{◌≡◌, ℕ, false, IfOk};
ghost use Rattle.sn_live.specs.Unnamed.{DropsNameless};
ghost use Rattle.sn_model.specs.Tree.{Tree};
ghost use Rattle.sn_overlay.specs.Layers.{through};
ghost use Rattle.sn_overlay.specs.Needs.{counts};
ghost use Rattle.sn_overlay.specs.Overlays.{HasRoom, layer_of, no_changes};
ghost use Rattle.sn_overlay.specs.Seen.{LiesOver};

use crate::LiveWorld;
use sn_overlay::Overlay;
use std::alloc::{AllocError, Global};

impl LiveWorld {
    ghost use Rattle.sn_live_world.specs.World.{HasDrops, HasNoPoint, HasSessions, IsOver, changes_of, kept_of, kept_since_of, nameless_of, point_of, tree_over, world_over};

    /// A copy of what changed, without the files that have no name. Nothing changes.
    ///
    /// Proved: What changed can be copied without the files that have no name.
    pub fn settled_changes(&self, alloc: Global) -> Result<Overlay, AllocError>
        ensures { (below : Tree) → IsOver self.now below → IfOk result (λ settled. DropsNameless (tree_over self.now below) (changes_of self.now) (layer_of settled)) }
    {
        self.live.settled_changes(alloc)
    }

    /// A consistency point begins, where none is in progress: what changed so far is what it writes, and what changes
    /// from now on goes to this overlay. Nothing that is shown changes. It takes no memory.
    ///
    /// Proved, also of `end_point` and `replace_root`: Consistency points begin and end without a change of what is shown.
    pub fn begin_point(&mut self, since: Overlay)
        requires none { HasNoPoint self.old }
        requires empty { layer_of since ≡ no_changes }
        ensures world { (below : Tree) → world_over self.new below ≡ world_over self.old below }
        ensures over { (below : Tree) → IsOver self.old below → IsOver self.new below }
        ensures point { point_of self.new ≡ changes_of self.old }
        ensures changes { changes_of self.new ≡ no_changes }
        ensures kept { (n : ℕ) → kept_of self.new n ≡ kept_of self.old n }
        ensures since { (n : ℕ) → kept_since_of self.new n ≡ false }
        ensures drops { (drops : ℕ) → HasRoom since (counts drops 0 0) → HasDrops self.new drops }
        ensures sessions { HasSessions self.old self.new }
        ensures counted { nameless_of self.new ≡ nameless_of self.old }
    {
        self.live.begin_point(since);
    }

    /// The root of the consistency point is durable, and shows of its tree what the point wrote over the root before:
    /// what is shown over it is what was shown. Numbers that were kept back before the point began can be given out
    /// again. It takes no memory.
    pub fn end_point(&mut self, alloc: Global)
        ensures world { (old new : Tree) → through (changes_of self.old) new ≡ tree_over self.old old → world_over self.new new ≡ world_over self.old old }
        ensures over { (old new : Tree) → LiesOver (changes_of self.old) new → through (changes_of self.old) new ≡ tree_over self.old old → IsOver self.old old
            → IsOver self.new new }
        ensures point { HasNoPoint self.new }
        ensures changes { changes_of self.new ≡ changes_of self.old }
        ensures kept { (n : ℕ) → kept_of self.new n ≡ kept_since_of self.old n }
        ensures since { (n : ℕ) → kept_since_of self.new n ≡ kept_since_of self.old n }
        ensures drops { (drops : ℕ) → HasDrops self.old drops → HasDrops self.new drops }
        ensures sessions { HasSessions self.old self.new }
        ensures counted { nameless_of self.new ≡ nameless_of self.old }
    {
        self.live.end_point(alloc);
    }

    /// A whole consistency point was made while none was in progress, and its root shows all that is shown. No number is
    /// kept back any more, and what changes from now on goes to this overlay. It takes no memory.
    pub fn replace_root(&mut self, alloc: Global, since: Overlay)
        requires none { HasNoPoint self.old }
        requires empty { layer_of since ≡ no_changes }
        ensures world { (old new : Tree) → new ≡ tree_over self.old old → world_over self.new new ≡ world_over self.old old }
        ensures over { (old new : Tree) → new ≡ tree_over self.old old → IsOver self.old old → IsOver self.new new }
        ensures point { HasNoPoint self.new }
        ensures changes { changes_of self.new ≡ no_changes }
        ensures kept { (n : ℕ) → kept_of self.new n ≡ false }
        ensures since { (n : ℕ) → kept_since_of self.new n ≡ false }
        ensures drops { (drops : ℕ) → HasRoom since (counts drops 0 0) → HasDrops self.new drops }
        ensures sessions { HasSessions self.old self.new }
        ensures counted { nameless_of self.new ≡ nameless_of self.old }
    {
        self.live.replace_root(alloc, since);
    }
}
