//! Bytes of open files, and their end.
ghost use Rattle.std.specs.Prelude.{◌≡◌, ◌<◌, IfOk, IfErr, min};
ghost use Rattle.sn_fuse_replies.specs.declared.errno.Errno.TheVariants.{ENOMEM};
ghost use Rattle.sn_plan.specs.Follows.{Does};
ghost use Rattle.sn_serve_files.specs.Messages as messages;

use crate::replies::{content, number, numbered, sought};
use sn_callers::{OpenFile, session_of};
use sn_fuse_replies::Errno;
use sn_model::{Call, FileData};
use sn_plan::{FileSystem, Server, done};
use std::alloc::Global;

/// How many bytes a call reads at most.
const COUNT_MAX: u32 = 65_536;

/// How many bytes of those that a message wants a call reads.
fn count_of(size: u32) -> u64
    ensures { result ≡ min size 65536 }
{
    u64::from(size.min(COUNT_MAX))
}

/// READ: so many bytes of an open file from an offset on, fewer at the file's end, and at most 65,536. `EBADF` where the handle has no file.
///
/// Proved: READ is one read through the descriptor that the handle stands for, at the offset of the message, and no right is asked again.
pub fn read<F: FileSystem>(
    server: &mut Server<F>,
    handle: u64,
    offset: u64,
    size: u32,
) -> Result<FileData, Errno>
    ensures { Does F.did server.old server.new (messages.read handle offset size) result }
{
    let file = server.open_file(handle)?;
    let fd = file.descriptor;
    let session = session_of(handle);
    let at = server.call(session, &Call::Seek { fd, offset });
    numbered(&at)?;
    let count = count_of(size);
    let reply = server.call(session, &Call::Read { fd, count });
    content(reply)
}

/// A copy of bytes, for a call.
fn copied(alloc: Global, bytes: &[u8]) -> Result<FileData, Errno>
    ensures bytes { IfOk result (λ copy. copy ≡ bytes.now) }
    ensures err { IfErr result (λ e. e ≡ ENOMEM) }
{
    match Vec::from_slice(alloc, bytes) {
        Ok(copy) => Ok(FileData::new(copy)),
        Err(_) => Err(Errno::ENOMEM),
    }
}

fn write_at<F: FileSystem>(
    server: &mut Server<F>,
    handle: u64,
    file: OpenFile,
    offset: u64,
    bytes: FileData,
) -> Result<u32, Errno>
    requires { handle < 4032 }
    ensures { Does F.did server.old server.new (messages.writes_at handle file offset bytes) result }
{
    let fd = file.descriptor;
    let session = session_of(handle);
    let at = server.call(session, &Call::Seek { fd, offset });
    sought(&at)?;
    let reply = server.call(session, &Call::Write { fd, bytes });
    number(&reply)
}

/// WRITE: bytes at an offset of an open file. Returns how many were written, which is all. `EFBIG` where they go past the largest file,
/// `EINVAL` for more than 65,536, which no message brings, and `EBADF` where the handle has no file.
///
/// Proved: WRITE is one write of all its bytes through the descriptor that the handle stands for, at the offset of the message, and no right is
/// asked again.
pub fn write<F: FileSystem>(
    server: &mut Server<F>,
    handle: u64,
    offset: u64,
    bytes: &[u8],
) -> Result<u32, Errno>
    ensures { Does F.did server.old server.new (messages.write handle offset bytes.now) result }
{
    let file = server.open_file(handle)?;
    let bytes = copied(server.alloc, bytes)?;
    write_at(server, handle, file, offset, bytes)
}

/// RELEASE: closes an open file. The handle has no file then, whatever close replies. `EBADF` where it has none before.
///
/// Proved: RELEASE closes the descriptor that the handle stands for, and then it stands for nothing.
pub fn release<F: FileSystem>(server: &mut Server<F>, handle: u64) -> Result<(), Errno>
    ensures { Does F.did server.old server.new (messages.release handle) result }
{
    let file = server.open_file(handle)?;
    let fd = file.descriptor;
    let reply = server.call(session_of(handle), &Call::Close { fd });
    server.close(handle, file.node);
    done(&reply)
}
