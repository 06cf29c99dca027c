//! The laws that the definitions of `specs/` keep.
ghost use Rattle.sn_changed.specs.Decided.{DecidedGiveNoFirstName, KeptOpenStay, LoggedKeepNameless, LoggedKeepOpen, LoggedStayNameless};
ghost use Rattle.sn_changed.specs.Laws.{BuildsFit, CallersDrop, ChangesMerge, DropsMerge, DropsNeed, EachMerges, NothingChanged, WithoutEachIs};

use sn_overlay::changes_are_paid;

/// How what changed since a root grows, and that it fits.
///
/// Proved: What changed since a root is a layer over its tree through which the live one is seen, from none over a new root
/// on: each change of the live tree is merged and charged, and so is each file without names that goes, which its own charge
/// pays.
/// Proved: Where all that was charged since the root, with a charge for each file that its tree has without names, is no
/// more than it leaves free, so is what the layer needs, with a charge for each live file without names: what a point has to
/// build fits.
pub fn changed_laws()
    ensures nothing { NothingChanged }
    ensures changes { ChangesMerge }
    ensures drops { DropsMerge }
    ensures fit { BuildsFit }
{
    changes_are_paid();
}

/// No file gets its first name by what a call has decided, and a call that is logged closes nothing: so it leaves
/// each file without names so, and no fewer of them.
///
/// Proved: A call that is logged gives no file its first name and closes nothing, and so leaves each file without names so,
/// and no fewer of them.
pub fn decided_laws()
    ensures names { DecidedGiveNoFirstName }
    ensures kept { LoggedKeepOpen }
    ensures held { KeptOpenStay }
    ensures nameless { LoggedStayNameless }
    ensures counted { LoggedKeepNameless }
{}

/// How files that go lead on, each once: to the tree that is left of the live one.
///
/// Proved: Where k files without names were dropped and nothing else changed, as where a snapshot is brought back, a point
/// needs at most 6k + 2 blocks, and none where none was dropped.
pub fn dropped_laws()
    ensures merged { EachMerges }
    ensures left { WithoutEachIs }
    ensures caller { CallersDrop }
    ensures need { DropsNeed }
{}
