//! Calls, and the lines of their replies.

use anyhow::{Context, Result};
use sn_model::{AclKind, Call, Event, Reply, Word};
use sn_script::{print_replies, read_script};
use std::alloc::Global;
use std::{slice, str};

/// The call that makes a directory.
pub fn mkdir(alloc: Global, path: &str, mode: u16) -> Result<Call> {
    Ok(Call::Mkdir {
        path: Word::new(alloc, path.as_bytes())?,
        mode,
    })
}

/// The call that asks for attributes.
pub fn stat(alloc: Global, path: &str) -> Result<Call> {
    Ok(Call::Stat {
        path: Word::new(alloc, path.as_bytes())?,
    })
}

/// The call that asks for an ACL.
pub fn getacl(alloc: Global, path: &str, kind: AclKind) -> Result<Call> {
    Ok(Call::GetAcl {
        path: Word::new(alloc, path.as_bytes())?,
        kind,
    })
}

/// The number of the node that a stat reports, and none of any other reply.
pub fn number_of(reply: &Reply) -> Option<u16> {
    match reply {
        Reply::Status(status) => Some(status.number),
        _ => None,
    }
}

/// The line of a reply, with its end. Too little memory is an error.
pub fn line_of(alloc: Global, reply: &Reply) -> Result<String> {
    let line = print_replies(alloc, slice::from_ref(reply))?;
    Ok(String::from_str(alloc, str::from_utf8(line.as_slice())?)?)
}

/// The event of a script's line, which is given without its end. A line that is none, and too little memory, are errors.
pub fn event_of(alloc: Global, line: &str) -> Result<Event> {
    let script = format!(in alloc; "{line}\n")?;
    let mut events = read_script(alloc, script.as_str().as_bytes())?;
    events.pop().context(format_args!("no event: {line}"))
}
