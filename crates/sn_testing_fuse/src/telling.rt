//! The line of what was decoded.

use crate::layouts::word_of;
use anyhow::Result;
use sn_fuse::{Decoded, Forgets, Head, Name, NewAttributes, Op, Span};
use std::alloc::Global;
use std::str;

fn push_numbers<const N: usize>(text: &mut String, numbers: [u64; N]) -> Result<()> {
    for number in numbers {
        write!(text, " {number}")?;
    }
    Ok(())
}

fn push_span(text: &mut String, span: &Span) -> Result<()> {
    push_numbers(text, [span.handle, span.offset, u64::from(span.size)])
}

fn push_attributes(text: &mut String, new: &NewAttributes) -> Result<()> {
    push_numbers(text, [u64::from(new.flags.0), new.handle, new.size])?;
    push_numbers(text, [new.accessed.seconds, new.modified.seconds])?;
    let accessed = u64::from(new.accessed.nanoseconds);
    let modified = u64::from(new.modified.nanoseconds);
    push_numbers(text, [accessed, modified, u64::from(new.mode)])?;
    push_numbers(text, [u64::from(new.user), u64::from(new.group)])
}

// Of what makes, moves or names something.
fn push_making(text: &mut String, op: &Op<'_>) -> Result<()> {
    match op {
        Op::Mknod {
            mode,
            device,
            umask,
            ..
        } => push_numbers(
            text,
            [u64::from(*mode), u64::from(*device), u64::from(*umask)],
        ),
        Op::Create {
            flags,
            mode,
            umask,
            ..
        } => push_numbers(
            text,
            [u64::from(flags.0), u64::from(*mode), u64::from(*umask)],
        ),
        Op::Mkdir { mode, umask, .. } => push_numbers(text, [u64::from(*mode), u64::from(*umask)]),
        Op::Rename { directory, .. } => push_numbers(text, [*directory]),
        Op::Rename2 {
            directory,
            flags,
            ..
        } => push_numbers(text, [*directory, u64::from(flags.0)]),
        Op::Link { node, .. } => push_numbers(text, [*node]),
        Op::GetXattr { size, .. } => push_numbers(text, [u64::from(*size)]),
        Op::SetXattr { flags, .. } => push_numbers(text, [u64::from(flags.0)]),
        _ => Ok(()),
    }
}

// Of open files and directories.
fn push_opened(text: &mut String, op: &Op<'_>) -> Result<()> {
    match op {
        Op::Open { flags } | Op::OpenDir { flags } => push_numbers(text, [u64::from(flags.0)]),
        Op::Read { span } | Op::ReadDir { span } => push_span(text, span),
        Op::Write {
            handle,
            offset,
            flags,
            ..
        } => push_numbers(text, [*handle, *offset, u64::from(*flags)]),
        Op::Release { handle } | Op::ReleaseDir { handle } | Op::Flush { handle } => {
            push_numbers(text, [*handle])
        }
        Op::Fsync { handle, flags } | Op::FsyncDir { handle, flags } => {
            push_numbers(text, [*handle, u64::from(*flags)])
        }
        _ => push_making(text, op),
    }
}

fn push_fields(text: &mut String, op: &Op<'_>) -> Result<()> {
    match op {
        Op::Forget { lookups } => push_numbers(text, [*lookups]),
        Op::Interrupt { unique } => push_numbers(text, [*unique]),
        Op::GetAttr { flags, handle } => push_numbers(text, [u64::from(*flags), *handle]),
        Op::SetAttr { attributes } => push_attributes(text, attributes),
        Op::ListXattr { size } => push_numbers(text, [u64::from(*size)]),
        Op::Access { mask } => push_numbers(text, [u64::from(*mask)]),
        Op::Init {
            major,
            minor,
            readahead,
            flags,
        } => {
            push_numbers(text, [u64::from(*major), u64::from(*minor)])?;
            push_numbers(text, [u64::from(*readahead), u64::from(flags.0)])
        }
        Op::BatchForget { forgets } => push_forgets(text, forgets),
        _ => push_opened(text, op),
    }
}

fn push_forgets(text: &mut String, forgets: &Forgets<'_>) -> Result<()> {
    for index in 0..forgets.len() {
        if let Some(forget) = forgets.get(index) {
            let (node, lookups) = (forget.node, forget.lookups);
            write!(text, " {node}:{lookups}")?;
        }
    }
    Ok(())
}

fn push_name(text: &mut String, name: &Name<'_>) -> Result<()> {
    let name = str::from_utf8(name.as_bytes())?;
    write!(text, " /{name}")?;
    Ok(())
}

fn push_data(text: &mut String, bytes: &[u8]) -> Result<()> {
    text.push_str(" x")?;
    for byte in bytes {
        write!(text, "{byte:02x}")?;
    }
    Ok(())
}

fn push_names(text: &mut String, op: &Op<'_>) -> Result<()> {
    match op {
        Op::Lookup { name }
        | Op::Unlink { name }
        | Op::Rmdir { name }
        | Op::RemoveXattr { name }
        | Op::Link { name, .. }
        | Op::GetXattr { name, .. }
        | Op::Mkdir { name, .. }
        | Op::Mknod { name, .. }
        | Op::Create { name, .. }
        | Op::SetXattr { name, .. } => push_name(text, name),
        Op::Symlink { name, target } => {
            push_name(text, name)?;
            push_name(text, target)
        }
        Op::Rename {
            old_name,
            new_name,
            ..
        }
        | Op::Rename2 {
            old_name,
            new_name,
            ..
        } => {
            push_name(text, old_name)?;
            push_name(text, new_name)
        }
        _ => Ok(()),
    }
}

fn push_request(text: &mut String, head: &Head, op: &Op<'_>) -> Result<()> {
    let (word, node) = (word_of(head.opcode)?, head.node);
    let (user, group) = (head.user, head.group);
    write!(text, "{word} {node} {user}:{group}")?;
    push_fields(text, op)?;
    push_names(text, op)?;
    match op {
        Op::Write { bytes, .. } => push_data(text, bytes.as_bytes()),
        Op::SetXattr { value, .. } => push_data(text, value.as_bytes()),
        _ => Ok(()),
    }
}

/// The line of a request; else `short`, or `unknown` or `misspelt` and the opcode.
pub fn told(alloc: Global, decoded: &Decoded<'_>) -> Result<String> {
    let mut text = String::new(alloc);
    match decoded {
        Decoded::Short => text.push_str("short")?,
        Decoded::Unknown { head } => {
            let opcode = head.opcode;
            write!(text, "unknown {opcode}")?;
        }
        Decoded::Misspelt { head } => {
            let opcode = head.opcode;
            write!(text, "misspelt {opcode}")?;
        }
        Decoded::Request { head, op } => push_request(&mut text, head, op)?,
    }
    Ok(text)
}
