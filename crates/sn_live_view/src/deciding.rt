//! The outcomes of calls over a root that is seen through what changed since.
ghost use Rattle.std.specs.Prelude.{◌≡◌, IsTrue, IfOk};
ghost use Rattle.sn_core_decide_rules.specs.Decided.{Decides, HidesNoRefusal};
ghost use Rattle.sn_core_decide_rules.specs.Faults.{IfView};
ghost use Rattle.sn_desc.specs.Sessions.{in_use_of};
ghost use Rattle.sn_directories.specs.Told.{IsShown};
ghost use Rattle.sn_model.specs.Worlds.{IsCall};
ghost use Rattle.sn_overlay.specs.Layers.{through};
ghost use Rattle.sn_overlay.specs.Overlays.{layer_of};
ghost use Rattle.sn_live.specs.Live.{IsLive, shown_of};
ghost use Rattle.sn_live_view.specs.Live.{IsNumbered, live_trees, world_of};
ghost use Rattle.sn_walk.specs.Frame.{Leaves};

use crate::unread::UnreadView;
use crate::{LiveView, Unread};
use sn_applies::NamedTree;
use sn_core_decide::decide;
use sn_core_decide_rules::CallError;
use sn_desc::Sessions;
use sn_directories::{Directories, KeepsNames, LoggedTree};
use sn_live::LiveTree;
use sn_live_files::{HasContents, HasSnapshots};
use sn_model::{Call, Outcome};
use sn_number_table::NumberTable;
use sn_overlay::{Overlay, Through};
use std::alloc::Global;

// The outcome of a call over a live tree, with the table of its numbers.
fn decide_on<'x, 'c, T: NamedTree + HasContents + HasSnapshots>(
    alloc: Global,
    tree: &'x mut T,
    numbers: &'x NumberTable,
    sessions: &Sessions,
    session: u32,
    call: &'c Call,
) -> Result<Outcome<'c>, CallError<T::Fault>>
    requires holds { T.holds tree.old }
    requires frozen { T.holds_frozen tree.old }
    requires numbered { IsTrue T.is_told → IsNumbered (T.shows tree.old) numbers.now }
    ensures left { Leaves T.holds T.follows T.is_told T.shows tree.old tree.new }
    ensures decided { IsTrue T.is_told → Decides (world_of (in_use_of sessions.now) (live_trees (T.shows tree.old) (T.frozen tree.old))) session call.now result }
    ensures refused { IsTrue T.is_told → HidesNoRefusal (world_of (in_use_of sessions.now) (live_trees (T.shows tree.old) (T.frozen tree.old))) session call.now result }
    ensures cause { IfView result (λ f. T.causes tree.old tree.new f) }
    ensures numbers { IfOk result (λ o. IsCall call.now) }
{
    let mut view = LiveView { tree, numbers };
    decide(alloc, &mut view, sessions, session, call)
}

// The outcome of a call over a tree that is seen through an overlay.
fn decide_over<'x, 'c, B: KeepsNames + HasContents + HasSnapshots>(
    alloc: Global,
    below: &'x mut B,
    overlay: &'x Overlay,
    directories: &'x Directories,
    numbers: &NumberTable,
    sessions: &Sessions,
    session: u32,
    call: &'c Call,
) -> Result<Outcome<'c>, CallError<B::Fault>>
    requires holds { B.holds below.old }
    requires frozen { B.holds_frozen below.old }
    requires shown { IsTrue B.is_told → IsShown (layer_of overlay.now) (B.shows below.old) directories.now }
    requires numbered { IsTrue B.is_told → IsNumbered (through (layer_of overlay.now) (B.shows below.old)) numbers.now }
    ensures left { Leaves B.holds B.follows B.is_told B.shows below.old below.new }
    ensures decided { IsTrue B.is_told → Decides (world_of (in_use_of sessions.now) (live_trees (through (layer_of overlay.now) (B.shows below.old)) (B.frozen below.old))) session call.now result }
    ensures refused { IsTrue B.is_told → HidesNoRefusal (world_of (in_use_of sessions.now) (live_trees (through (layer_of overlay.now) (B.shows below.old)) (B.frozen below.old))) session call.now result }
    ensures cause { IfView result (λ f. B.causes below.old below.new f) }
    ensures numbers { IfOk result (λ o. IsCall call.now) }
{
    let mut tree = LoggedTree {
        shown: Through { overlay, below },
        directories,
    };
    decide_on(alloc, &mut tree, numbers, sessions, session, call)
}

/// The outcome of a call over a live tree of a root and the frozen ones, or why it has none: `Memory` where its answer
/// found none, `View` where the root found a fault. Nothing changes.
///
/// Proved: The outcome of a call over a live tree and the tree below it, which lists names and has snapshots, or its first
/// refusal, is exactly the model's in the world whose live tree is what is shown, and whose frozen trees are those below.
pub fn decide_live<'x, 'c, B: KeepsNames + HasContents + HasSnapshots>(
    alloc: Global,
    root: &'x mut B,
    live: &'x LiveTree,
    sessions: &Sessions,
    session: u32,
    call: &'c Call,
) -> Result<Outcome<'c>, CallError<B::Fault>>
    requires holds { B.holds root.old }
    requires frozen { B.holds_frozen root.old }
    requires live { IsTrue B.is_told → IsLive live.now (B.shows root.old) }
    ensures left { Leaves B.holds B.follows B.is_told B.shows root.old root.new }
    ensures decided { IsTrue B.is_told → Decides (world_of (in_use_of sessions.now) (live_trees (shown_of live.now (B.shows root.old)) (B.frozen root.old))) session call.now result }
    ensures refused { IsTrue B.is_told → HidesNoRefusal (world_of (in_use_of sessions.now) (live_trees (shown_of live.now (B.shows root.old)) (B.frozen root.old))) session call.now result }
    ensures cause { IfView result (λ f. B.causes root.old root.new f) }
    ensures numbers { IfOk result (λ o. IsCall call.now) }
{
    let mut below = Through {
        overlay: live.point(),
        below: root,
    };
    decide_over(
        alloc,
        &mut below,
        live.changes(),
        live.directories(),
        live.numbers(),
        sessions,
        session,
        call,
    )
}

/// The outcome of a call that needs no look-up of a tree, or why it has none: `Memory` where its answer found none, `View`
/// where a look-up is needed. In both cases its session and arguments have passed.
///
/// Proved: The outcome of a call that needs no look-up is the model's without any, and of each other call its session and
/// arguments have passed.
pub fn decide_unread<'x, 'c, B: HasSnapshots>(
    alloc: Global,
    root: &'x B,
    live: &'x LiveTree,
    sessions: &Sessions,
    session: u32,
    call: &'c Call,
) -> Result<Outcome<'c>, CallError<Unread>>
    ensures decided { Decides (world_of (in_use_of sessions.now) (live_trees (shown_of live.now (B.shows root.now)) (B.frozen root.now))) session call.now result }
    ensures refused { HidesNoRefusal (world_of (in_use_of sessions.now) (live_trees (shown_of live.now (B.shows root.now)) (B.frozen root.now))) session call.now result }
    ensures numbers { IfOk result (λ o. IsCall call.now) }
{
    let mut view = UnreadView { root, live };
    decide(alloc, &mut view, sessions, session, call)
}
