//! The state of a live tree.
ghost use Rattle.std.specs.Prelude.{◌≡◌, ℕ, ◌≤◌, ◌^◌, Some, IsTrue, IfErr, IfOk, IfSome, OnOk};
ghost use Rattle.std.specs.FinMap as map;
ghost use Rattle.sn_directories.specs.Told.{IsShown, TellsDirectories};
ghost use Rattle.sn_limits.specs.Versions.{limits_of, limits_written};
ghost use Rattle.sn_limits.specs.declared.limits.Limits.{Limits as TheLimits};
ghost use Rattle.sn_live.specs.Live.{HasDrops, HasNoPoint, IsLive, KeepsBack, ShowsAlike, changes_of, count_of, kept_back_of, kept_since_of, point_of, shown_of};
ghost use Rattle.sn_live.specs.Prepared.{CanBeMade, HasRoomFor, IsPrepared};
ghost use Rattle.sn_model.specs.Changes.{apply};
ghost use Rattle.sn_model.specs.Charges.{charge_for};
ghost use Rattle.sn_model.specs.NameTree.{IsTree};
ghost use Rattle.sn_model.specs.Settling.{is_nameless};
ghost use Rattle.sn_model.specs.Tree.{Tree};
ghost use Rattle.sn_model.specs.declared.change.Change.{Change as TheChange};
ghost use Rattle.sn_number_table.specs.Nameless.{TellsNameless};
ghost use Rattle.sn_number_table.specs.Table.{TellsNumbers, kept_of, since_of};
ghost use Rattle.sn_number_table.specs.Numbers.{kept_after, next_number, since_after};
ghost use Rattle.sn_overlay.specs.Layers.{through};
ghost use Rattle.sn_overlay.specs.Merges.{merge};
ghost use Rattle.sn_model.specs.Settling.{nameless_in};
ghost use Rattle.sn_overlay.specs.Overlays.{layer_of, no_changes};
ghost use Rattle.sn_overlay_change.specs.ChangeLayers.{layer_of_change};
ghost use Rattle.sn_overlay_change.specs.Faults.{IfBelow};
ghost use Rattle.sn_walk.specs.Frame.{Leaves};

use crate::nodes::{nameless_after, note_names, note_nodes};
use crate::preparing::{PreparedLive, charge_through, prepare_through};
use sn_directories::{Directories, KeepsNames};
use sn_limits::Limits;
use sn_logged::commit_change;
use sn_model::Change;
use sn_number_table::{NamelessFiles, NumberTable};
use sn_overlay::Overlay;
use sn_overlay_change::LayerFault;
use std::alloc::{AllocError, Global};

/// The state of a live tree over a tree below, which it doesn't hold: what changed of it, and what has to be known of
/// the tree that is shown.
#[derive(Drop)]
pub struct LiveTree {
    /// What changed since the consistency point in progress began, or since the root where none is.
    pub(crate) top: Overlay,
    /// What the consistency point in progress writes, nothing where none is.
    pub(crate) bottom: Overlay,
    directories: Directories,
    pub(crate) numbers: NumberTable,
    /// The files that have no name.
    pub(crate) without_names: NamelessFiles,
    /// How many they are.
    pub(crate) nameless: u32,
}

impl LiveTree {
    /// The live tree of a root that was just mounted: nothing changed since. It takes no memory.
    ///
    /// Proved, also of `next_number` and `nameless`: Over a root nothing changed; the next number and the count are those of
    /// the tree that is shown.
    pub fn over(
        alloc: Global,
        directories: Directories,
        numbers: NumberTable,
        without_names: NamelessFiles,
        nameless: u32,
    ) -> LiveTree
        ensures live { (root : Tree) → IsTree limits_written root → TellsDirectories root directories → TellsNumbers root numbers → TellsNameless root without_names → nameless ≡ nameless_in root → IsLive result root }
        ensures shown { (root : Tree) → shown_of result root ≡ root }
        ensures point { HasNoPoint result }
        ensures changes { changes_of result ≡ no_changes }
        ensures kept { (n : ℕ) → kept_back_of result n ≡ kept_of numbers n }
        ensures since { (n : ℕ) → kept_since_of result n ≡ since_of numbers n }
    {
        LiveTree {
            top: Overlay::new(alloc),
            bottom: Overlay::new(alloc),
            directories,
            numbers,
            without_names,
            nameless,
        }
    }

    /// How many files of the tree that is shown have no name.
    pub fn nameless(&self) -> u32
        ensures exact { result ≡ count_of self.now }
        ensures tells { (below : Tree) → IsLive self.now below → result ≡ nameless_in (shown_of self.now below) }
    {
        self.nameless
    }

    /// Whether a number is that of a file without names. No tree below is read for it.
    ///
    /// Proved, also of `PreparedLive::lost`: Whether a number is that of a file without names, and which file loses its last
    /// name by a change, is answered without a look at the tree below.
    pub fn is_nameless(&self, number: u16) -> bool
        ensures { (below : Tree) → IsLive self.now below → result ≡ is_nameless (shown_of self.now below) number (map.get (shown_of self.now below).nodes number) }
    {
        self.without_names.contains(number)
    }

    /// The number that a new node gets: the least that no node has and that isn't kept back, or the least that no node
    /// has where there is no other. None where all numbers have a node.
    pub fn next_number(&self, limits: &Limits) -> Option<u16>
        ensures { (below : Tree) → IsLive self.now below → result ≡ next_number limits.now (shown_of self.now below) (kept_back_of self.now) }
    {
        self.numbers.next_number(limits)
    }

    /// Whether a number is kept back: its file went with its last descriptor, since the durable root's point began.
    pub fn is_kept_back(&self, number: u16) -> bool
        ensures { result ≡ kept_back_of self.now number }
    {
        self.numbers.is_kept_back(number)
    }

    /// What changed since the consistency point in progress began, or since the root where none is.
    pub fn changes(&self) -> &Overlay
        ensures { layer_of result.now ≡ changes_of self.now }
    {
        &self.top
    }

    /// What the consistency point in progress writes, nothing where none is.
    pub fn point(&self) -> &Overlay
        ensures { layer_of result.now ≡ point_of self.now }
    {
        &self.bottom
    }

    /// The table of the directories that are shown.
    pub fn directories(&self) -> &Directories
        ensures { (below : Tree) → IsLive self.now below → IsShown (changes_of self.now) (through (point_of self.now) below) result.now }
    {
        &self.directories
    }

    /// The table of the numbers of the tree that is shown.
    pub fn numbers(&self) -> &NumberTable
        ensures tells { (below : Tree) → IsLive self.now below → TellsNumbers (shown_of self.now below) result.now }
        ensures kept { (n : ℕ) → kept_of result.now n ≡ kept_back_of self.now n }
    {
        &self.numbers
    }

    /// The blocks that are charged for a change of what is shown, by limits of any version that is read. It looks a name up
    /// at most; a fault is one of the tree below.
    ///
    /// Proved: A change is charged what the model charges it over what is shown, by the given limits, of any version that is
    /// read.
    pub fn charge<B: KeepsNames>(
        &self,
        limits: &Limits,
        below: &mut B,
        change: &Change<'_>,
    ) -> Result<u128, B::Fault>
        requires holds { B.holds below.old }
        requires version { limits_of limits.now.version ≡ Some limits.now }
        requires live { IsTrue B.is_told → IsLive self.now (B.shows below.old) }
        ensures left { Leaves B.holds B.follows B.is_told B.shows below.old below.new }
        ensures exact { IsTrue B.is_told → IfOk result (λ n. n ≡ charge_for limits.now (shown_of self.now (B.shows below.old)) change.now) }
        ensures few { IfOk result (λ n. n ≤ 2 ^ 64) }
        ensures cause { IfErr result (λ f. B.causes below.old below.new f) }
    {
        charge_through(
            limits,
            below,
            &self.bottom,
            &self.top,
            &self.directories,
            change,
        )
    }

    /// Reads and grows all that a change of what is shown asks for, where it can be applied under the limits, with room
    /// for it and for so many drops besides. `None` where it can't be applied. Nothing that is shown changes, and no room
    /// for drops is lost, whatever the answer. A fault is one of the tree below, or of memory.
    ///
    /// Proved, also of `commit`: A change is prepared exactly where it can be applied under the given limits, of any version
    /// that is read, and what is shown is unchanged, with its room for drops, whatever the answer; to make it takes no
    /// memory, can't fail, and leaves that room.
    pub fn prepare<B: KeepsNames>(
        &mut self,
        alloc: Global,
        limits: &Limits,
        below: &mut B,
        change: &Change<'_>,
        drops: u16,
    ) -> Result<Option<PreparedLive>, LayerFault<B::Fault>>
        requires holds { B.holds below.old }
        requires version { limits_of limits.now.version ≡ Some limits.now }
        requires live { IsTrue B.is_told → IsLive self.old (B.shows below.old) }
        ensures left { Leaves B.holds B.follows B.is_told B.shows below.old below.new }
        ensures alike { ShowsAlike self.old self.new }
        ensures point { point_of self.new ≡ point_of self.old }
        ensures changes { changes_of self.new ≡ changes_of self.old }
        ensures numbers { KeepsBack self.old self.new }
        ensures prepared { IsTrue B.is_told → IfOk result (λ p. IsPrepared limits.now p (shown_of self.old (B.shows below.old)) change.now) }
        ensures room { IfOk result (λ p. IfSome p (λ prepared. HasRoomFor self.new prepared drops)) }
        ensures stays { (n : ℕ) → HasDrops self.old n → HasDrops self.new n }
        ensures counted { count_of self.new ≡ count_of self.old }
        ensures cause { IfBelow result (λ f. B.causes below.old below.new f) }
    {
        prepare_through(
            alloc,
            limits,
            below,
            &self.bottom,
            &mut self.top,
            &self.directories,
            change,
            drops,
        )
    }

    /// Makes a change that was prepared, where there is room for it: then what is shown is what the change makes of it,
    /// and the state still belongs to it. What changed has grown by what the change makes different. Where the change
    /// gives out a number that is kept back, none is any more. It takes no memory, and leaves room for as many drops as
    /// there was besides the change.
    ///
    /// Proved: What is shown becomes exactly what the model makes of it by a change, and the state follows it: overlays
    /// over one another, a name tree, tables of its directories and numbers, and the list and count of its files without
    /// names; what changed is merged with exactly the layer of the change.
    /// Proved: The numbers that are kept back are those that the model keeps back by the change.
    pub fn commit(&mut self, prepared: PreparedLive)
        requires { HasRoomFor self.old prepared 0 }
        ensures live { (limits : TheLimits) (below : Tree) (change : TheChange) → limits_of limits.version ≡ Some limits → IsLive self.old below → CanBeMade limits prepared (shown_of self.old below) change → IsLive self.new below }
        ensures shown { (limits : TheLimits) (below : Tree) (change : TheChange) → limits_of limits.version ≡ Some limits → IsLive self.old below → CanBeMade limits prepared (shown_of self.old below) change
            → apply limits change (shown_of self.old below) ≡ Some (shown_of self.new below) }
        ensures merged { (limits : TheLimits) (below : Tree) (change : TheChange) → limits_of limits.version ≡ Some limits → IsLive self.old below → CanBeMade limits prepared (shown_of self.old below) change
            → changes_of self.new ≡ merge (changes_of self.old) (layer_of_change (shown_of self.old below) change) }
        ensures point { point_of self.new ≡ point_of self.old }
        ensures kept { (limits : TheLimits) (tree : Tree) (change : TheChange) → limits_of limits.version ≡ Some limits → CanBeMade limits prepared tree change → (n : ℕ) → kept_back_of self.new n ≡ kept_after change (kept_back_of self.old) n }
        ensures since { (limits : TheLimits) (tree : Tree) (change : TheChange) → limits_of limits.version ≡ Some limits → CanBeMade limits prepared tree change → (n : ℕ)
            → kept_since_of self.new n ≡ since_after change (kept_back_of self.old) (kept_since_of self.old) n }
        ensures drops { (drops : ℕ) → HasRoomFor self.old prepared drops → HasDrops self.new drops }
    {
        let PreparedLive { change, nodes } = prepared;
        commit_change(change, &mut self.top, &mut self.directories);
        note_nodes(&mut self.numbers, nodes);
        note_names(&mut self.without_names, nodes);
        self.nameless = nameless_after(self.nameless, nodes);
    }

    /// Makes room for so many drops. Whatever the answer, nothing that is shown changes, and no room for drops is lost.
    pub fn reserve_drops(&mut self, drops: u16) -> Result<(), AllocError>
        ensures alike { ShowsAlike self.old self.new }
        ensures point { point_of self.new ≡ point_of self.old }
        ensures changes { changes_of self.new ≡ changes_of self.old }
        ensures numbers { KeepsBack self.old self.new }
        ensures drops { OnOk result (HasDrops self.new drops) }
        ensures stays { (n : ℕ) → HasDrops self.old n → HasDrops self.new n }
        ensures counted { count_of self.new ≡ count_of self.old }
    {
        self.top.reserve(usize::from(drops), 0, 0)
    }
}
