//! chmod, chown and setacl, which set owner, group, S bits and ACLs of an object.
ghost use Rattle.std.specs.Prelude.{◌≡◌, IsTrue, IfOk, IfErr};
ghost use Rattle.sn_model.specs.AccessCalls as calls;
ghost use Rattle.sn_model.specs.Outcomes as outcomes;
ghost use Rattle.sn_walk.specs.Gives.{Gives, IfFault};
ghost use Rattle.sn_model.specs.declared.call.Call.TheVariants as call;
ghost use Rattle.sn_desc.specs.Sessions.{in_use_of};
ghost use Rattle.sn_core_decide_rules.specs.Decided.{DecidesShown};
ghost use Rattle.sn_core_decide_rules.specs.Faults.{IfView};
ghost use Rattle.sn_walk.specs.Frame.{Leaves};

use crate::asking::default_acl_at;
use crate::rights::{by_owner, has_acl, to_group, to_owner};
use sn_acl::Cred;
use sn_core_decide_rules::{
    CallError, FileView, acl_argument, attributes_charge, decided, does, full, id_argument, live,
    logged_in, mode_bits_argument, path_argument,
};
use sn_desc::Sessions;
use sn_limits::{Kind, Limits};
use sn_model::{
    AclKind, Change, ModeBits, NewAcl, Outcome, Ownership, PathNumber, Refusal, Session, Word,
};
use sn_walk::{Attributes, Failure, Found, Path, TreeView};

/// What is set at once of an object.
fn ownership_at<V: TreeView>(view: &mut V, found: &Found) -> Result<Ownership, V::Fault>
    requires { V.holds view.old }
    ensures left { Leaves V.holds V.follows V.is_told V.shows view.old view.new }
    ensures found { IsTrue V.is_told → IfOk result (λ o. o ≡ calls.ownership_at (V.shows view.old) found.now) }
    ensures cause { IfErr result (λ f. V.causes view.old view.new f) }
{
    let default_acl = default_acl_at(view, &found.object)?;
    let a = &found.attributes;
    Ok(Ownership {
        owner: a.owner,
        group: a.group,
        set_gid: a.set_gid,
        sticky: a.sticky,
        acl: a.acl.copy(),
        default_acl,
    })
}

/// Owner, group, S bits and ACLs are set at once.
fn sets(limits: &Limits, number: u16, ownership: Ownership) -> Outcome<'static>
    ensures { result ≡ outcomes.does limits.now.inode_charge (Change.SetAttributes number ownership) }
{
    does(
        attributes_charge(limits),
        Change::SetAttributes { number, ownership },
    )
}

/// S_ISGID stays with a directory, and with a file where the caller is the user 0 or in the file's
/// group.
fn may_set_gid(cred: &Cred, a: &Attributes) -> bool
    ensures { result ≡ calls.may_set_gid cred.now a.now }
{
    matches!(a.kind, Kind::Directory) || cred.uid() == 0 || cred.is_member(a.group)
}

fn with_mode_bits(
    cred: &Cred,
    a: &Attributes,
    bits: ModeBits,
    mut ownership: Ownership,
) -> Ownership
    ensures { result ≡ calls.with_mode_bits cred.now a.now bits ownership }
{
    ownership.acl.chmod(bits.mode);
    ownership.set_gid = bits.set_gid && may_set_gid(cred, a);
    ownership.sticky = bits.sticky;
    ownership
}

/// The outcome of chmod.
#[tactic(auto, unfolding(sn_model::specs::AccessCalls::chmod_outcome))]
fn chmod<V: TreeView>(
    limits: &Limits,
    view: &mut V,
    caller: &Session,
    path: &Path<'_>,
    bits: ModeBits,
) -> Result<Outcome<'static>, Failure<Refusal, V::Fault>>
    requires { V.holds view.old }
    ensures left { Leaves V.holds V.follows V.is_told V.shows view.old view.new }
    ensures exact { IsTrue V.is_told → Gives (λ o. o) result (calls.chmod_outcome limits.now (V.shows view.old) caller.now path.now bits) }
    ensures cause { IfFault result (λ f. V.causes view.old view.new f) }
{
    let found = full(view, &caller.cred, PathNumber::FIRST, path)?;
    let number = live(&found.object)?;
    by_owner(&caller.cred, PathNumber::FIRST, &found)?;
    let ownership = match ownership_at(view, &found) {
        Ok(ownership) => ownership,
        Err(fault) => return Err(Failure::Fault(fault)),
    };
    let ownership = with_mode_bits(&caller.cred, &found.attributes, bits, ownership);
    Ok(sets(limits, number, ownership))
}

/// The outcome of chmod: what the owner and user 0 may set of the mode (POSIX.1-2017 `chmod`).
pub fn decide_chmod<V: FileView>(
    view: &mut V,
    sessions: &Sessions,
    session: u32,
    path: &Word,
    mode: u16,
) -> Result<Outcome<'static>, CallError<V::Fault>>
    requires { V.holds view.old }
    ensures left { Leaves V.holds V.follows V.is_told V.shows view.old view.new }
    ensures decided { IsTrue V.is_told → DecidesShown (in_use_of sessions.now) (V.shows view.old) (V.room view.old) (V.names view.old) (V.bytes view.old) session (call.Chmod path.now mode) result }
    ensures cause { IfView result (λ f. V.causes view.old view.new f) }
{
    let caller = logged_in(sessions, session)?;
    let path = path_argument(path)?;
    let bits = mode_bits_argument(mode)?;
    decided(chmod(&Limits::WRITTEN, view, caller, &path, bits))
}

/// S_ISGID stays with a directory, and with a file that the user 0 gives.
fn keeps_set_gid(cred: &Cred, a: &Attributes) -> bool
    ensures { result ≡ calls.keeps_set_gid cred.now a.now }
{
    matches!(a.kind, Kind::Directory) || cred.uid() == 0
}

fn given_to(
    cred: &Cred,
    a: &Attributes,
    uid: Option<u32>,
    gid: Option<u32>,
    mut ownership: Ownership,
) -> Ownership
    ensures { result ≡ calls.given_to cred.now a.now uid gid ownership }
{
    ownership.owner = uid.unwrap_or(ownership.owner);
    ownership.group = gid.unwrap_or(ownership.group);
    ownership.set_gid = ownership.set_gid && keeps_set_gid(cred, a);
    ownership
}

/// The outcome of chown.
#[tactic(auto, unfolding(sn_model::specs::AccessCalls::chown_outcome))]
fn chown<V: TreeView>(
    limits: &Limits,
    view: &mut V,
    caller: &Session,
    path: &Path<'_>,
    uid: Option<u32>,
    gid: Option<u32>,
) -> Result<Outcome<'static>, Failure<Refusal, V::Fault>>
    requires { V.holds view.old }
    ensures left { Leaves V.holds V.follows V.is_told V.shows view.old view.new }
    ensures exact { IsTrue V.is_told → Gives (λ o. o) result (calls.chown_outcome limits.now (V.shows view.old) caller.now path.now uid gid) }
    ensures cause { IfFault result (λ f. V.causes view.old view.new f) }
{
    let found = full(view, &caller.cred, PathNumber::FIRST, path)?;
    let number = live(&found.object)?;
    by_owner(&caller.cred, PathNumber::FIRST, &found)?;
    to_owner(&caller.cred, PathNumber::FIRST, &found, uid)?;
    to_group(&caller.cred, PathNumber::FIRST, &found, gid)?;
    let ownership = match ownership_at(view, &found) {
        Ok(ownership) => ownership,
        Err(fault) => return Err(Failure::Fault(fault)),
    };
    let ownership = given_to(&caller.cred, &found.attributes, uid, gid, ownership);
    Ok(sets(limits, number, ownership))
}

/// The outcome of chown: another owner by user 0 alone, another group by its members (POSIX.1-2017 `chown`).
pub fn decide_chown<V: FileView>(
    view: &mut V,
    sessions: &Sessions,
    session: u32,
    path: &Word,
    uid: Option<u32>,
    gid: Option<u32>,
) -> Result<Outcome<'static>, CallError<V::Fault>>
    requires { V.holds view.old }
    ensures left { Leaves V.holds V.follows V.is_told V.shows view.old view.new }
    ensures decided { IsTrue V.is_told → DecidesShown (in_use_of sessions.now) (V.shows view.old) (V.room view.old) (V.names view.old) (V.bytes view.old) session (call.Chown path.now uid gid) result }
    ensures cause { IfView result (λ f. V.causes view.old view.new f) }
{
    let caller = logged_in(sessions, session)?;
    let path = path_argument(path)?;
    let uid = id_argument(uid)?;
    let gid = id_argument(gid)?;
    decided(chown(&Limits::WRITTEN, view, caller, &path, uid, gid))
}

fn with_acl(acl: NewAcl, mut ownership: Ownership) -> Ownership
    ensures { result ≡ calls.with_acl acl ownership }
{
    match acl {
        NewAcl::Access(acl) => ownership.acl = acl,
        NewAcl::Default(acl) => ownership.default_acl = acl,
    }
    ownership
}

fn kind_of(acl: &NewAcl) -> AclKind
    ensures { result ≡ calls.kind_of acl.now }
{
    match acl {
        NewAcl::Access(_) => AclKind::Access,
        NewAcl::Default(_) => AclKind::Default,
    }
}

/// The outcome of setacl.
#[tactic(auto, unfolding(sn_model::specs::AccessCalls::setacl_outcome))]
fn setacl<V: TreeView>(
    limits: &Limits,
    view: &mut V,
    caller: &Session,
    path: &Path<'_>,
    acl: NewAcl,
) -> Result<Outcome<'static>, Failure<Refusal, V::Fault>>
    requires { V.holds view.old }
    ensures left { Leaves V.holds V.follows V.is_told V.shows view.old view.new }
    ensures exact { IsTrue V.is_told → Gives (λ o. o) result (calls.setacl_outcome limits.now (V.shows view.old) caller.now path.now acl) }
    ensures cause { IfFault result (λ f. V.causes view.old view.new f) }
{
    let found = full(view, &caller.cred, PathNumber::FIRST, path)?;
    has_acl(kind_of(&acl), &found.attributes)?;
    let number = live(&found.object)?;
    by_owner(&caller.cred, PathNumber::FIRST, &found)?;
    let ownership = match ownership_at(view, &found) {
        Ok(ownership) => ownership,
        Err(fault) => return Err(Failure::Fault(fault)),
    };
    Ok(sets(limits, number, with_acl(acl, ownership)))
}

/// The outcome of setacl: the owner or user 0 sets an ACL of a node (acl(5)).
pub fn decide_setacl<V: FileView>(
    view: &mut V,
    sessions: &Sessions,
    session: u32,
    path: &Word,
    kind: AclKind,
    acl: &Word,
) -> Result<Outcome<'static>, CallError<V::Fault>>
    requires { V.holds view.old }
    ensures left { Leaves V.holds V.follows V.is_told V.shows view.old view.new }
    ensures decided { IsTrue V.is_told → DecidesShown (in_use_of sessions.now) (V.shows view.old) (V.room view.old) (V.names view.old) (V.bytes view.old) session (call.SetAcl path.now kind acl.now) result }
    ensures cause { IfView result (λ f. V.causes view.old view.new f) }
{
    let caller = logged_in(sessions, session)?;
    let path = path_argument(path)?;
    let acl = acl_argument(kind, acl)?;
    decided(setacl(&Limits::WRITTEN, view, caller, &path, acl))
}
