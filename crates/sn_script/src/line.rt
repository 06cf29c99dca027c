ghost use Rattle.std.specs.Prelude.{map};
ghost use Rattle.sn_words.specs.Reading.{IsRead};
ghost use Rattle.sn_script.specs.Reading.{login_of, bare_of, umask_of, chown_of, access_of, getacl_of, setacl_of, open_of, write_of, file_call_of, access_call_of, path_call_of, name_call_of, point_call_of, call_of, event_of, line_event, lone_event_of};

use crate::arguments::{descriptor, descriptor_and_number, path, path_and_mode, paths};
use sn_model::{Call, Event};
use sn_words::SpellingFault;
use sn_words::cut::parts;
use sn_words::field::{acl_kind, content, file_mode, flags, groups, id, number, octal, want, word};
use std::alloc::Global;

/// The most words that a line has.
pub(crate) const MAX_WORDS: usize = 5;

// Names that are compared: a pattern of six bytes isn't proved.
const LOGIN: &[u8] = b"login";

const LOGOUT: &[u8] = b"logout";

const UMASK: &[u8] = b"umask";

const MKDIR: &[u8] = b"mkdir";

const RMDIR: &[u8] = b"rmdir";

const UNLINK: &[u8] = b"unlink";

const LINK: &[u8] = b"link";

const RENAME: &[u8] = b"rename";

const READDIR: &[u8] = b"readdir";

const STAT: &[u8] = b"stat";

const CHMOD: &[u8] = b"chmod";

const CHOWN: &[u8] = b"chown";

const ACCESS: &[u8] = b"access";

const GETACL: &[u8] = b"getacl";

const SETACL: &[u8] = b"setacl";

const OPEN: &[u8] = b"open";

const CLOSE: &[u8] = b"close";

const READ: &[u8] = b"read";

const WRITE: &[u8] = b"write";

const SEEK: &[u8] = b"seek";

const FTRUNCATE: &[u8] = b"ftruncate";

const SYNC: &[u8] = b"sync";

const SNAP_CREATE: &[u8] = b"snap-create";

const SNAP_DELETE: &[u8] = b"snap-delete";

const SNAP_RESTORE: &[u8] = b"snap-restore";

const SNAP_LIST: &[u8] = b"snap-list";

const STEP: &[u8] = b"step";

const RESTART: &[u8] = b"restart";

#[tactic(auto, unfolding(crate::specs::Reading::login_of))]
fn login(alloc: Global, arguments: &[&[u8]]) -> Result<Call, SpellingFault>
    ensures { IsRead (λ c. c) result (login_of (map (λ w. w.now) arguments.now)) }
{
    let &[uid, gid, others] = arguments else {
        return Err(SpellingFault::Bad);
    };
    let uid = number(uid)?;
    let gid = number(gid)?;
    let groups = groups(alloc, others)?;
    Ok(Call::Login { uid, gid, groups })
}

/// A call without arguments.
#[tactic(auto, unfolding(crate::specs::Reading::bare_of))]
fn bare(call: Call, arguments: &[&[u8]]) -> Result<Call, SpellingFault>
    ensures { IsRead (λ c. c) result (bare_of call (map (λ w. w.now) arguments.now)) }
{
    if arguments.is_empty() {
        Ok(call)
    } else {
        Err(SpellingFault::Bad)
    }
}

#[tactic(auto, unfolding(crate::specs::Reading::umask_of))]
fn umask(arguments: &[&[u8]]) -> Result<Call, SpellingFault>
    ensures { IsRead (λ c. c) result (umask_of (map (λ w. w.now) arguments.now)) }
{
    let &[mask] = arguments else {
        return Err(SpellingFault::Bad);
    };
    let mask = octal(mask)?;
    Ok(Call::Umask { mask })
}

#[tactic(auto, unfolding(crate::specs::Reading::chown_of))]
fn chown(alloc: Global, arguments: &[&[u8]]) -> Result<Call, SpellingFault>
    ensures { IsRead (λ c. c) result (chown_of (map (λ w. w.now) arguments.now)) }
{
    let &[path, uid, gid] = arguments else {
        return Err(SpellingFault::Bad);
    };
    let path = word(alloc, path)?;
    let uid = id(uid)?;
    let gid = id(gid)?;
    Ok(Call::Chown { path, uid, gid })
}

#[tactic(auto, unfolding(crate::specs::Reading::access_of))]
fn access(alloc: Global, arguments: &[&[u8]]) -> Result<Call, SpellingFault>
    ensures { IsRead (λ c. c) result (access_of (map (λ w. w.now) arguments.now)) }
{
    let &[path, rights] = arguments else {
        return Err(SpellingFault::Bad);
    };
    let path = word(alloc, path)?;
    let want = want(rights)?;
    Ok(Call::Access { path, want })
}

#[tactic(auto, unfolding(crate::specs::Reading::getacl_of))]
fn getacl(alloc: Global, arguments: &[&[u8]]) -> Result<Call, SpellingFault>
    ensures { IsRead (λ c. c) result (getacl_of (map (λ w. w.now) arguments.now)) }
{
    let &[path, kind] = arguments else {
        return Err(SpellingFault::Bad);
    };
    let path = word(alloc, path)?;
    let kind = acl_kind(kind)?;
    Ok(Call::GetAcl { path, kind })
}

#[tactic(auto, unfolding(crate::specs::Reading::setacl_of))]
fn setacl(alloc: Global, arguments: &[&[u8]]) -> Result<Call, SpellingFault>
    ensures { IsRead (λ c. c) result (setacl_of (map (λ w. w.now) arguments.now)) }
{
    let &[path, kind, acl] = arguments else {
        return Err(SpellingFault::Bad);
    };
    let path = word(alloc, path)?;
    let kind = acl_kind(kind)?;
    let acl = word(alloc, acl)?;
    Ok(Call::SetAcl { path, kind, acl })
}

#[tactic(auto, unfolding(crate::specs::Reading::open_of))]
fn open(alloc: Global, arguments: &[&[u8]]) -> Result<Call, SpellingFault>
    ensures { IsRead (λ c. c) result (open_of (map (λ w. w.now) arguments.now)) }
{
    let &[path, letters, ref others @ ..] = arguments else {
        return Err(SpellingFault::Bad);
    };
    let path = word(alloc, path)?;
    let flags = flags(letters)?;
    let mode = file_mode(flags.create, others)?;
    Ok(Call::Open { path, flags, mode })
}

#[tactic(auto, unfolding(crate::specs::Reading::write_of))]
fn write(alloc: Global, arguments: &[&[u8]]) -> Result<Call, SpellingFault>
    ensures { IsRead (λ c. c) result (write_of (map (λ w. w.now) arguments.now)) }
{
    let &[fd, digits] = arguments else {
        return Err(SpellingFault::Bad);
    };
    let fd = number(fd)?;
    let bytes = content(alloc, digits)?;
    Ok(Call::Write { fd, bytes })
}

/// A call on descriptors.
#[tactic(auto, unfolding(crate::specs::Reading::file_call_of))]
fn file_call(alloc: Global, name: &[u8], arguments: &[&[u8]]) -> Result<Call, SpellingFault>
    ensures { IsRead (λ c. c) result (file_call_of name.now (map (λ w. w.now) arguments.now)) }
{
    if name == OPEN {
        return open(alloc, arguments);
    }
    if name == CLOSE {
        let fd = descriptor(arguments)?;
        return Ok(Call::Close { fd });
    }
    if name == READ {
        let (fd, count) = descriptor_and_number(arguments)?;
        return Ok(Call::Read { fd, count });
    }
    if name == WRITE {
        return write(alloc, arguments);
    }
    if name == SEEK {
        let (fd, offset) = descriptor_and_number(arguments)?;
        return Ok(Call::Seek { fd, offset });
    }
    if name == FTRUNCATE {
        let (fd, size) = descriptor_and_number(arguments)?;
        return Ok(Call::Ftruncate { fd, size });
    }
    Err(SpellingFault::Bad)
}

/// A call of modes, owners and ACLs, or on descriptors.
#[tactic(auto, unfolding(crate::specs::Reading::access_call_of))]
fn access_call(alloc: Global, name: &[u8], arguments: &[&[u8]]) -> Result<Call, SpellingFault>
    ensures { IsRead (λ c. c) result (access_call_of name.now (map (λ w. w.now) arguments.now)) }
{
    if name == CHMOD {
        let (path, mode) = path_and_mode(alloc, arguments)?;
        return Ok(Call::Chmod { path, mode });
    }
    if name == CHOWN {
        return chown(alloc, arguments);
    }
    if name == ACCESS {
        return access(alloc, arguments);
    }
    if name == GETACL {
        return getacl(alloc, arguments);
    }
    if name == SETACL {
        return setacl(alloc, arguments);
    }
    file_call(alloc, name, arguments)
}

/// A call on one path alone, or of modes, owners and ACLs, or on descriptors.
#[tactic(auto, unfolding(crate::specs::Reading::path_call_of))]
fn path_call(alloc: Global, name: &[u8], arguments: &[&[u8]]) -> Result<Call, SpellingFault>
    ensures { IsRead (λ c. c) result (path_call_of name.now (map (λ w. w.now) arguments.now)) }
{
    if name == RMDIR {
        let path = path(alloc, arguments)?;
        return Ok(Call::Rmdir { path });
    }
    if name == UNLINK {
        let path = path(alloc, arguments)?;
        return Ok(Call::Unlink { path });
    }
    if name == READDIR {
        let path = path(alloc, arguments)?;
        return Ok(Call::Readdir { path });
    }
    if name == STAT {
        let path = path(alloc, arguments)?;
        return Ok(Call::Stat { path });
    }
    access_call(alloc, name, arguments)
}

/// A call on names, or of the other groups.
#[tactic(auto, unfolding(crate::specs::Reading::name_call_of))]
fn name_call(alloc: Global, name: &[u8], arguments: &[&[u8]]) -> Result<Call, SpellingFault>
    ensures { IsRead (λ c. c) result (name_call_of name.now (map (λ w. w.now) arguments.now)) }
{
    if name == MKDIR {
        let (path, mode) = path_and_mode(alloc, arguments)?;
        return Ok(Call::Mkdir { path, mode });
    }
    if name == LINK {
        let (old, new) = paths(alloc, arguments)?;
        return Ok(Call::Link { old, new });
    }
    if name == RENAME {
        let (old, new) = paths(alloc, arguments)?;
        return Ok(Call::Rename { old, new });
    }
    path_call(alloc, name, arguments)
}

/// A call for a whole point or on snapshots, or on names.
#[tactic(auto, unfolding(crate::specs::Reading::point_call_of))]
fn point_call(alloc: Global, name: &[u8], arguments: &[&[u8]]) -> Result<Call, SpellingFault>
    ensures { IsRead (λ c. c) result (point_call_of name.now (map (λ w. w.now) arguments.now)) }
{
    if name == SYNC {
        return bare(Call::Sync, arguments);
    }
    if name == SNAP_CREATE {
        let name = path(alloc, arguments)?;
        return Ok(Call::SnapCreate { name });
    }
    if name == SNAP_DELETE {
        let name = path(alloc, arguments)?;
        return Ok(Call::SnapDelete { name });
    }
    if name == SNAP_RESTORE {
        let name = path(alloc, arguments)?;
        return Ok(Call::SnapRestore { name });
    }
    if name == SNAP_LIST {
        return bare(Call::SnapList, arguments);
    }
    name_call(alloc, name, arguments)
}

#[tactic(auto, unfolding(crate::specs::Reading::call_of))]
fn call(alloc: Global, name: &[u8], arguments: &[&[u8]]) -> Result<Call, SpellingFault>
    ensures { IsRead (λ c. c) result (call_of name.now (map (λ w. w.now) arguments.now)) }
{
    if name == LOGIN {
        return login(alloc, arguments);
    }
    if name == LOGOUT {
        return bare(Call::Logout, arguments);
    }
    if name == UMASK {
        return umask(arguments);
    }
    point_call(alloc, name, arguments)
}

/// The events that are no calls of a session.
#[tactic(auto, unfolding(crate::specs::Reading::lone_event_of))]
fn lone_event(name: &[u8]) -> Result<Event, SpellingFault>
    ensures { IsRead (λ e. e) result (lone_event_of name.now) }
{
    if name == STEP {
        return Ok(Event::Step);
    }
    if name == RESTART {
        return Ok(Event::Restart);
    }
    Err(SpellingFault::Bad)
}

#[tactic(auto, unfolding(crate::specs::Reading::event_of))]
fn event_of_words(alloc: Global, words: &[&[u8]]) -> Result<Event, SpellingFault>
    ensures { IsRead (λ e. e) result (event_of (map (λ w. w.now) words.now)) }
{
    if let &[name] = words {
        return lone_event(name);
    }
    let &[session, name, ref arguments @ ..] = words else {
        return Err(SpellingFault::Bad);
    };
    let session = number(session)?;
    let call = call(alloc, name, arguments)?;
    Ok(Event::Call { session, call })
}

/// The event of a line that comes without its end.
#[tactic(auto, unfolding(crate::specs::Reading::line_event))]
pub(crate) fn event(alloc: Global, line: &[u8]) -> Result<Event, SpellingFault>
    ensures { IsRead (λ e. e) result (line_event line.now) }
{
    let Some(words) = parts::<MAX_WORDS>(line, b' ') else {
        return Err(SpellingFault::Bad);
    };
    event_of_words(alloc, words.as_slice())
}
