//! Looks at the live tree and the frozen ones as user 0 does, beside the calls.
ghost use Rattle.std.specs.Prelude.{◌≡◌, IsTrue, IfErr, IfOk};
ghost use Rattle.sn_directories.specs.Told.{IsShown};
ghost use Rattle.sn_live.specs.Live.{IsLive, shown_of};
ghost use Rattle.sn_live_view.specs.Live.{IsNumbered, live_trees};
ghost use Rattle.sn_live_view.specs.Looking.{known_at, known_by};
ghost use Rattle.sn_model.specs.World.{viewed_trees};
ghost use Rattle.sn_overlay.specs.Layers.{through};
ghost use Rattle.sn_overlay.specs.Overlays.{layer_of};
ghost use Rattle.sn_walk.specs.Frame.{Leaves};

use crate::LiveView;
use sn_acl::Cred;
use sn_applies::NamedTree;
use sn_core_decide_rules::full;
use sn_directories::{Directories, KeepsNames, LoggedTree};
use sn_live::LiveTree;
use sn_live_files::{HasContents, HasSnapshots};
use sn_model::PathNumber;
use sn_number_table::NumberTable;
use sn_overlay::{Overlay, Through};
use sn_walk::{Attributes, Failure, Found, Object, Path, TreeView, attributes_of};

/// What is looked for.
#[derive(Drop)]
pub enum Sought<'a> {
    /// What a path leads user 0 to.
    Path(Path<'a>),
    /// This object.
    Object(Object),
}

/// An object that is there, and what is known of it.
#[derive(Drop)]
pub struct Known {
    pub object: Object,
    pub attributes: Attributes,
}

// What a path leads user 0 to.
fn look_along<V: TreeView>(view: &mut V, path: &Path<'_>) -> Result<Option<Known>, V::Fault>
    requires { V.holds view.old }
    ensures left { Leaves V.holds V.follows V.is_told V.shows view.old view.new }
    ensures found { IsTrue V.is_told → IfOk result (λ known. known ≡ known_by (V.shows view.old) path.now) }
    ensures cause { IfErr result (λ f. V.causes view.old view.new f) }
{
    match full(view, &Cred::new(0, 0, &[]), PathNumber::FIRST, path) {
        Ok(
            Found {
                object,
                attributes,
                ..
            },
        ) => Ok(Some(Known { object, attributes })),
        Err(Failure::Refused(_)) => Ok(None),
        Err(Failure::Fault(fault)) => Err(fault),
    }
}

// What is sought in a view.
fn look<V: TreeView>(view: &mut V, sought: &Sought<'_>) -> Result<Option<Known>, V::Fault>
    requires { V.holds view.old }
    ensures left { Leaves V.holds V.follows V.is_told V.shows view.old view.new }
    ensures found { IsTrue V.is_told → IfOk result (λ known. known ≡ known_at (V.shows view.old) sought.now) }
    ensures cause { IfErr result (λ f. V.causes view.old view.new f) }
{
    match sought {
        Sought::Path(path) => look_along(view, path),
        Sought::Object(object) => match attributes_of(view, object) {
            Ok(Some(attributes)) => Ok(Some(Known {
                object: object.copy(),
                attributes,
            })),
            Ok(None) => Ok(None),
            Err(fault) => Err(fault),
        },
    }
}

// What is sought in a live tree, with the table of its numbers, and the frozen ones.
fn look_on<'x, T: NamedTree + HasContents + HasSnapshots>(
    tree: &'x mut T,
    numbers: &'x NumberTable,
    sought: &Sought<'_>,
) -> Result<Option<Known>, T::Fault>
    requires holds { T.holds tree.old }
    requires frozen { T.holds_frozen tree.old }
    requires numbered { IsTrue T.is_told → IsNumbered (T.shows tree.old) numbers.now }
    ensures left { Leaves T.holds T.follows T.is_told T.shows tree.old tree.new }
    ensures found { IsTrue T.is_told → IfOk result (λ known. known ≡ known_at (viewed_trees (live_trees (T.shows tree.old) (T.frozen tree.old))) sought.now) }
    ensures cause { IfErr result (λ f. T.causes tree.old tree.new f) }
{
    let mut view = LiveView { tree, numbers };
    look(&mut view, sought)
}

// The same of a tree that is seen through an overlay.
fn look_over<'x, B: KeepsNames + HasContents + HasSnapshots>(
    below: &'x mut B,
    overlay: &'x Overlay,
    directories: &'x Directories,
    numbers: &NumberTable,
    sought: &Sought<'_>,
) -> Result<Option<Known>, B::Fault>
    requires holds { B.holds below.old }
    requires frozen { B.holds_frozen below.old }
    requires shown { IsTrue B.is_told → IsShown (layer_of overlay.now) (B.shows below.old) directories.now }
    requires numbered { IsTrue B.is_told → IsNumbered (through (layer_of overlay.now) (B.shows below.old)) numbers.now }
    ensures left { Leaves B.holds B.follows B.is_told B.shows below.old below.new }
    ensures found { IsTrue B.is_told → IfOk result (λ known. known ≡ known_at (viewed_trees (live_trees (through (layer_of overlay.now) (B.shows below.old)) (B.frozen below.old))) sought.now) }
    ensures cause { IfErr result (λ f. B.causes below.old below.new f) }
{
    let mut tree = LoggedTree {
        shown: Through { overlay, below },
        directories,
    };
    look_on(&mut tree, numbers, sought)
}

/// What is sought in a live tree of a root and in the frozen ones, `None` where it isn't there. A path that leads user 0
/// to nothing is no fault: the fault is the root's. Nothing changes.
///
/// Proved: What user 0 finds by a path, and what is known of an object, in the live tree and the frozen ones, is what the
/// model's walk finds.
pub fn look_up<'x, B: KeepsNames + HasContents + HasSnapshots>(
    root: &'x mut B,
    live: &'x LiveTree,
    sought: &Sought<'_>,
) -> Result<Option<Known>, B::Fault>
    requires holds { B.holds root.old }
    requires frozen { B.holds_frozen root.old }
    requires live { IsTrue B.is_told → IsLive live.now (B.shows root.old) }
    ensures left { Leaves B.holds B.follows B.is_told B.shows root.old root.new }
    ensures found { IsTrue B.is_told → IfOk result (λ known. known ≡ known_at (viewed_trees (live_trees (shown_of live.now (B.shows root.old)) (B.frozen root.old))) sought.now) }
    ensures cause { IfErr result (λ f. B.causes root.old root.new f) }
{
    let mut below = Through {
        overlay: live.point(),
        below: root,
    };
    look_over(
        &mut below,
        live.changes(),
        live.directories(),
        live.numbers(),
        sought,
    )
}
