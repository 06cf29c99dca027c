//! open.
ghost use Rattle.std.specs.Prelude.{◌≡◌, IsTrue};
ghost use Rattle.sn_limits.specs.declared.kind.Kind.TheVariants.{File};
ghost use Rattle.sn_model.specs.FileCalls as calls;
ghost use Rattle.sn_walk.specs.Gives.{Answers, Gives, IfFault};
ghost use Rattle.sn_model.specs.Seen.{parent_of};
ghost use Rattle.sn_walk.specs.declared.walking.Walked.{Walked};
ghost use Rattle.sn_core_decide_rules.specs.Views.{seen_by};
ghost use Rattle.sn_model.specs.declared.call.Call.TheVariants as call;
ghost use Rattle.sn_desc.specs.Sessions.{in_use_of};
ghost use Rattle.sn_core_decide_rules.specs.Decided.{DecidesShown};
ghost use Rattle.sn_core_decide_rules.specs.Faults.{IfView};
ghost use Rattle.sn_walk.specs.Frame.{Leaves};

use sn_acl::{Acl, Inherited, Mode, inherit};
use sn_core_decide_rules::{
    CallError, CallView, FileView, asks, decided, flags_argument, given_in, granted, live, live_if,
    logged_in, name_charge, new_mode_argument, parent_of, path_argument, prefix, size_charge,
    writable_parent,
};
use sn_desc::Sessions;
use sn_limits::{Kind, Limits};
use sn_model::{
    Access, AskedPoint, Bytes, Caller, Change, Errno, OpenFlags, Outcome, Ownership, PathNumber,
    Pending, Refusal, Reply, Session, Word,
};
use sn_walk::{Attributes, Failure, Found, Home, Object, Path, reached};

/// What is there isn't to be created: EEXIST otherwise.
fn not_exclusive(flags: OpenFlags) -> Result<(), Refusal>
    ensures { result ≡ calls.not_exclusive flags }
{
    if flags.exclusive {
        return Err(Refusal::plain(Errno::Eexist));
    }
    Ok(())
}

/// What isn't there is to be created: ENOENT otherwise.
fn creating(flags: OpenFlags) -> Result<(), Refusal>
    ensures { result ≡ calls.creating flags }
{
    if !flags.create {
        return Err(Refusal::plain(Errno::Enoent));
    }
    Ok(())
}

/// Only a file is opened: EISDIR for a directory.
fn file(found: &Found) -> Result<(Home, u16), Refusal>
    ensures { result ≡ calls.file found.now }
{
    match (&found.object, found.attributes.kind) {
        (Object::Node { home, number }, Kind::File) => Ok((home.copy(), *number)),
        _ => Err(Refusal::plain(Errno::Eisdir)),
    }
}

/// The outcome of opening a file that is there.
fn opens_there(
    limits: &Limits,
    flags: OpenFlags,
    fd: u32,
    home: Home,
    number: u16,
) -> Outcome<'static>
    ensures { result ≡ calls.opens_there limits.now flags fd home number }
{
    let caller = Caller::Opens {
        fd,
        home,
        number,
        flags,
    };
    let told = Reply::Number(u64::from(fd));
    if flags.truncate {
        return Outcome {
            charge: size_charge(limits),
            change: Pending::Does(Change::SetSize { number, size: 0 }),
            caller,
            told,
            point: AskedPoint::Unasked,
        };
    }
    asks(caller, told)
}

/// The outcome of open where the name is there.
#[tactic(auto, unfolding(sn_model::specs::FileCalls::open_there))]
fn open_there(
    limits: &Limits,
    caller: &Session,
    fd: u32,
    flags: OpenFlags,
    found: &Found,
) -> Result<Outcome<'static>, Refusal>
    ensures { Answers (λ o. o) result (calls.open_there limits.now caller.now fd flags found.now) }
{
    not_exclusive(flags)?;
    let (home, number) = file(found)?;
    live_if(flags.write, &found.object)?;
    let want = Access {
        read: flags.read,
        write: flags.write,
        execute: false,
    };
    granted(
        &caller.cred,
        PathNumber::FIRST,
        found.place,
        want,
        &found.attributes,
    )?;
    Ok(opens_there(limits, flags, fd, home, number))
}

/// What a file is given that a session makes in a directory.
fn new_file(
    caller: &Session,
    mode: Mode,
    parent: &Attributes,
    default_acl: Option<Acl>,
) -> Ownership
    ensures { result ≡ calls.first_ownership File caller.now mode parent.now default_acl }
{
    let Inherited { access, default } = inherit(default_acl.as_ref(), mode, caller.umask, false);
    Ownership {
        owner: caller.cred.uid(),
        group: if parent.set_gid {
            parent.group
        } else {
            caller.cred.gid()
        },
        set_gid: false,
        sticky: false,
        acl: access,
        default_acl: default,
    }
}

/// The outcome of open where the name isn't there, in the directory that was walked to.
fn open_in<'a, V: CallView>(
    limits: &Limits,
    view: &mut V,
    caller: &Session,
    fd: u32,
    flags: OpenFlags,
    mode: Mode,
    path: &Path<'a>,
    parent: &Object,
    place: u16,
) -> Result<Outcome<'a>, Failure<Refusal, V::Fault>>
    requires { V.holds view.old }
    ensures left { Leaves V.holds V.follows V.is_told V.shows view.old view.new }
    ensures exact { IsTrue V.is_told → Gives (λ o. o) result (calls.open_in limits.now (seen_by (V.shows view.old) (V.room view.old) (V.names view.old)) caller.now fd flags mode path.now parent.now place) }
    ensures cause { IfFault result (λ f. V.causes view.old view.new f) }
{
    let directory = live(parent)?;
    let attributes = writable_parent(view, &caller.cred, PathNumber::FIRST, place, parent)?;
    let default_acl = given_in(view, directory)?;
    Ok(Outcome {
        charge: name_charge(limits),
        change: Pending::Makes {
            directory,
            name: Bytes::new(path.last().unwrap_or(b"")),
            kind: Kind::File,
            ownership: new_file(caller, mode, &attributes, default_acl),
        },
        caller: Caller::OpensNew { fd, flags },
        told: Reply::Number(u64::from(fd)),
        point: AskedPoint::Unasked,
    })
}

/// The outcome of open where the name isn't there: the directory of the name is known, or why there is none.
#[tactic(auto, unfolding(sn_model::specs::FileCalls::open_absent))]
fn open_absent<'a, V: CallView>(
    limits: &Limits,
    view: &mut V,
    caller: &Session,
    fd: u32,
    flags: OpenFlags,
    mode: Mode,
    path: &Path<'a>,
    parent: Result<(Object, u16), Refusal>,
) -> Result<Outcome<'a>, Failure<Refusal, V::Fault>>
    requires { V.holds view.old }
    ensures left { Leaves V.holds V.follows V.is_told V.shows view.old view.new }
    ensures exact { IsTrue V.is_told → (walked : Walked) → parent ≡ parent_of Errno.Enoent walked → Gives (λ o. o) result (calls.open_absent limits.now (seen_by (V.shows view.old) (V.room view.old) (V.names view.old)) caller.now fd flags mode path.now walked) }
    ensures cause { IfFault result (λ f. V.causes view.old view.new f) }
{
    creating(flags)?;
    let (parent, place) = parent?;
    open_in(limits, view, caller, fd, flags, mode, path, &parent, place)
}

/// The outcome of open, under the descriptor that it answers.
fn open<'a, V: CallView>(
    limits: &Limits,
    view: &mut V,
    caller: &Session,
    fd: u32,
    path: &Path<'a>,
    flags: OpenFlags,
    mode: Mode,
) -> Result<Outcome<'a>, Failure<Refusal, V::Fault>>
    requires { V.holds view.old }
    ensures left { Leaves V.holds V.follows V.is_told V.shows view.old view.new }
    ensures exact { IsTrue V.is_told → Gives (λ o. o) result (calls.open_as limits.now (seen_by (V.shows view.old) (V.room view.old) (V.names view.old)) caller.now fd path.now flags mode) }
    ensures cause { IfFault result (λ f. V.causes view.old view.new f) }
{
    let walked = prefix(view, &caller.cred, PathNumber::FIRST, path)?;
    let parent = parent_of(Errno::Enoent, &walked);
    match reached(view, walked) {
        Ok(Some(found)) => Ok(open_there(limits, caller, fd, flags, &found)?),
        Ok(None) => open_absent(limits, view, caller, fd, flags, mode, path, parent),
        Err(fault) => Err(Failure::Fault(fault)),
    }
}

/// The outcome of open: a descriptor for a file that is there, or for one that is made (POSIX.1-2017 `open`). The rights
/// that the flags name are asked for here, once for all reads and writes through it. EMFILE comes after the tests of the
/// arguments, and before a name is looked up.
///
/// Proved, also of `decide_close`, `decide_read`, `decide_write`, `decide_seek` and `decide_ftruncate`: The outcome of
/// a call on an open file, or its first refusal, is the model's in each world that the sessions and a view show,
/// whatever that view reads.
#[tactic(auto, unfolding(sn_model::specs::FileCalls::open_outcome))]
pub fn decide_open<'a, V: FileView>(
    view: &mut V,
    sessions: &Sessions,
    session: u32,
    path: &'a Word,
    flags: OpenFlags,
    mode: u16,
) -> Result<Outcome<'a>, CallError<V::Fault>>
    requires { V.holds view.old }
    ensures left { Leaves V.holds V.follows V.is_told V.shows view.old view.new }
    ensures decided { IsTrue V.is_told → DecidesShown (in_use_of sessions.now) (V.shows view.old) (V.room view.old) (V.names view.old) (V.bytes view.old) session (call.Open path.now flags mode) result }
    ensures cause { IfView result (λ f. V.causes view.old view.new f) }
{
    let caller = logged_in(sessions, session)?;
    let path = path_argument(path)?;
    let flags = flags_argument(flags)?;
    let mode = new_mode_argument(mode)?;
    let fd = sessions.next_descriptor(session)?;
    decided(open(&Limits::WRITTEN, view, caller, fd, &path, flags, mode))
}
