//! link.
ghost use Rattle.std.specs.Prelude.{◌≡◌, IsTrue};
ghost use Rattle.sn_model.specs.NameCalls as calls;
ghost use Rattle.sn_walk.specs.Gives.{Gives, IfFault};
ghost use Rattle.sn_core_decide_rules.specs.Views.{seen_by};
ghost use Rattle.sn_model.specs.declared.call.Call.TheVariants as call;
ghost use Rattle.sn_desc.specs.Sessions.{in_use_of};
ghost use Rattle.sn_core_decide_rules.specs.Decided.{DecidesShown};
ghost use Rattle.sn_core_decide_rules.specs.Faults.{IfView};
ghost use Rattle.sn_walk.specs.Frame.{Leaves};

use sn_core_decide_rules::{
    CallError, CallView, FileView, decided, does, full, live, logged_in, name_charge, no_directory,
    not_present, one_tree, path_argument, prefix, writable_parent,
};
use sn_desc::Sessions;
use sn_limits::Limits;
use sn_model::{Bytes, Change, Errno, Outcome, PathNumber, Refusal, Session, Word};
use sn_walk::{Failure, Found, Object, Path, Walked};

/// The directory that a name is in. The tree of `/` is that of the root.
fn home_of(walked: &Walked) -> Object
    ensures { result ≡ calls.home_of walked.now }
{
    match walked {
        Walked::Root => Object::root(),
        Walked::Name { directory, .. } => directory.copy(),
    }
}

/// A file may get one more name: EMLINK otherwise.
fn may_link(limits: &Limits, found: &Found) -> Result<(), Refusal>
    ensures { result ≡ calls.may_link limits.now found.now }
{
    if found.attributes.links < limits.links {
        return Ok(());
    }
    Err(Refusal::plain(Errno::Emlink))
}

/// A file's new name in a directory that was walked to.
fn link_in<'a, V: CallView>(
    limits: &Limits,
    view: &mut V,
    caller: &Session,
    new: &Path<'a>,
    found: &Found,
    number: u16,
    parent: &Object,
    place: u16,
) -> Result<Outcome<'a>, Failure<Refusal, V::Fault>>
    requires { V.holds view.old }
    ensures left { Leaves V.holds V.follows V.is_told V.shows view.old view.new }
    ensures exact { IsTrue V.is_told → Gives (λ o. o) result (calls.link_in limits.now (seen_by (V.shows view.old) (V.room view.old) (V.names view.old)) caller.now new.now found.now number parent.now place) }
    ensures cause { IfFault result (λ f. V.causes view.old view.new f) }
{
    writable_parent(view, &caller.cred, PathNumber::SECOND, place, parent)?;
    may_link(limits, found)?;
    view.has_room_for_name(parent.number())?;
    Ok(does(
        name_charge(limits),
        Change::AddLink {
            directory: parent.number(),
            name: Bytes::new(new.last().unwrap_or(b"")),
            number,
        },
    ))
}

/// The outcome of link: a file gets one more name.
#[tactic(auto, unfolding(sn_model::specs::NameCalls::link_outcome))]
fn link<'a, V: CallView>(
    limits: &Limits,
    view: &mut V,
    caller: &Session,
    old: &Path<'_>,
    new: &Path<'a>,
) -> Result<Outcome<'a>, Failure<Refusal, V::Fault>>
    requires { V.holds view.old }
    ensures left { Leaves V.holds V.follows V.is_told V.shows view.old view.new }
    ensures exact { IsTrue V.is_told → Gives (λ o. o) result (calls.link_outcome limits.now (seen_by (V.shows view.old) (V.room view.old) (V.names view.old)) caller.now old.now new.now) }
    ensures cause { IfFault result (λ f. V.causes view.old view.new f) }
{
    let found = full(view, &caller.cred, PathNumber::FIRST, old)?;
    no_directory(&found)?;
    let walked = prefix(view, &caller.cred, PathNumber::SECOND, new)?;
    one_tree(&found.object, &home_of(&walked))?;
    let number = live(&found.object)?;
    let (parent, place) = not_present(walked)?;
    link_in(limits, view, caller, new, &found, number, &parent, place)
}

/// The outcome of link: a file gets one more name (POSIX.1-2017 `link`).
pub fn decide_link<'a, V: FileView>(
    view: &mut V,
    sessions: &Sessions,
    session: u32,
    old: &Word,
    new: &'a Word,
) -> Result<Outcome<'a>, CallError<V::Fault>>
    requires { V.holds view.old }
    ensures left { Leaves V.holds V.follows V.is_told V.shows view.old view.new }
    ensures decided { IsTrue V.is_told → DecidesShown (in_use_of sessions.now) (V.shows view.old) (V.room view.old) (V.names view.old) (V.bytes view.old) session (call.Link old.now new.now) result }
    ensures cause { IfView result (λ f. V.causes view.old view.new f) }
{
    let caller = logged_in(sessions, session)?;
    let old = path_argument(old)?;
    let new = path_argument(new)?;
    decided(link(&Limits::WRITTEN, view, caller, &old, &new))
}
