//! Consistency points of a live tree.
ghost use Rattle.std.specs.Prelude.{◌≡◌, ℕ, false};
ghost use Rattle.sn_live.specs.Live.{HasDrops, HasNoPoint, IsLive, ShowsAlike, changes_of, count_of, kept_back_of, kept_since_of, point_of, shown_of};
ghost use Rattle.sn_model.specs.Tree.{Tree};
ghost use Rattle.sn_overlay.specs.Layers.{through};
ghost use Rattle.sn_overlay.specs.Overlays.{HasRoom, layer_of, no_changes};
ghost use Rattle.sn_overlay.specs.Seen.{LiesOver};

use crate::live::LiveTree;
use sn_overlay::Overlay;
use std::alloc::Global;
use std::mem;

impl LiveTree {
    /// A consistency point begins, where none is in progress: what changed so far is what it writes, and stays below what
    /// changes from now on, which is kept in `since` and has the room for drops that this has. Nothing that is shown
    /// changes. It takes no memory.
    ///
    /// Proved, also of `end_point`: A consistency point begins and ends without a change of what is shown, and without
    /// memory: what changed so far is below what changes from then on, and is let go once a root is durable over which the
    /// rest shows what was shown.
    pub fn begin_point(&mut self, since: Overlay)
        requires between { HasNoPoint self.old }
        requires empty { layer_of since ≡ no_changes }
        ensures alike { ShowsAlike self.old self.new }
        ensures point { point_of self.new ≡ changes_of self.old }
        ensures changes { changes_of self.new ≡ no_changes }
        ensures kept { (n : ℕ) → kept_back_of self.new n ≡ kept_back_of self.old n }
        ensures since { (n : ℕ) → kept_since_of self.new n ≡ false }
        ensures drops { (drops : ℕ) → HasRoom since (record { nodes = drops; names = 0; blocks = 0 }) → HasDrops self.new drops }
        ensures counted { count_of self.new ≡ count_of self.old }
    {
        self.bottom = mem::replace(&mut self.top, since);
        self.numbers.begin_point();
    }

    /// The root of the consistency point is durable. What changed since lies over it, and shows there what was shown over
    /// the root before; so it does over what the point wrote, whatever that is built of. Numbers that were kept back
    /// before the point began can be given out again. It takes no memory.
    pub fn end_point(&mut self, alloc: Global)
        ensures live { (old new : Tree) → LiesOver (changes_of self.old) new → through (changes_of self.old) new ≡ shown_of self.old old → IsLive self.old old → IsLive self.new new }
        ensures shown { (old new : Tree) → through (changes_of self.old) new ≡ shown_of self.old old → shown_of self.new new ≡ shown_of self.old old }
        ensures point { HasNoPoint self.new }
        ensures changes { changes_of self.new ≡ changes_of self.old }
        ensures kept { (n : ℕ) → kept_back_of self.new n ≡ kept_since_of self.old n }
        ensures since { (n : ℕ) → kept_since_of self.new n ≡ kept_since_of self.old n }
        ensures drops { (drops : ℕ) → HasDrops self.old drops → HasDrops self.new drops }
        ensures counted { count_of self.new ≡ count_of self.old }
    {
        self.bottom = Overlay::new(alloc);
        self.numbers.end_point();
    }

    /// The root of a whole consistency point is durable, which was made while none was in progress: it shows all that is
    /// shown, and nothing changed since. What changes from now on is kept in `since`, and has the room for drops that this
    /// has. All numbers that were kept back can be given out again. It takes no memory.
    ///
    /// Proved: Where a root shows all that is shown, nothing changed since, and no number is kept back.
    pub fn replace_root(&mut self, alloc: Global, since: Overlay)
        requires between { HasNoPoint self.old }
        requires empty { layer_of since ≡ no_changes }
        ensures live { (old new : Tree) → new ≡ shown_of self.old old → IsLive self.old old → IsLive self.new new }
        ensures shown { (old new : Tree) → new ≡ shown_of self.old old → shown_of self.new new ≡ shown_of self.old old }
        ensures point { HasNoPoint self.new }
        ensures changes { changes_of self.new ≡ no_changes }
        ensures kept { (n : ℕ) → kept_back_of self.new n ≡ false }
        ensures since { (n : ℕ) → kept_since_of self.new n ≡ false }
        ensures drops { (drops : ℕ) → HasRoom since (record { nodes = drops; names = 0; blocks = 0 }) → HasDrops self.new drops }
        ensures counted { count_of self.new ≡ count_of self.old }
    {
        self.top = since;
        self.bottom = Overlay::new(alloc);
        self.numbers.release_all();
    }
}
