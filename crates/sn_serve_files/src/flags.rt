//! How a file is opened and made.
ghost use Rattle.std.specs.Prelude.{◌≡◌};
ghost use Rattle.sn_serve_files.specs.Flags as bits;

use bitflags::Flags;
use sn_fuse_flags::OpenFlags;
use sn_model::OpenFlags as CallFlags;

/// S_IFMT and S_IFREG of <sys/stat.h>.
const KIND_BITS: u32 = 0xF000;

const REGULAR: u32 = 0x8000;

fn reads(flags: OpenFlags) -> bool
    ensures { result ≡ bits.reads flags }
{
    !flags.contains(OpenFlags::WRITE_ONLY) || flags.contains(OpenFlags::READ_WRITE)
}

fn writes(flags: OpenFlags) -> bool
    ensures { result ≡ bits.writes flags }
{
    flags.contains(OpenFlags::WRITE_ONLY) || flags.contains(OpenFlags::READ_WRITE)
}

fn for_access(read: bool, write: bool) -> CallFlags
    ensures { result ≡ bits.for_access read write }
{
    CallFlags {
        read,
        write,
        append: false,
        create: false,
        exclusive: false,
        truncate: false,
    }
}

/// What who asks opens a file with. Appending isn't asked for, since the system tells each offset.
pub(crate) fn asked(flags: OpenFlags) -> CallFlags
    ensures { result ≡ bits.asked flags }
{
    let truncate = flags.contains(OpenFlags::TRUNCATE);
    let read = reads(flags);
    let write = writes(flags) || truncate;
    CallFlags {
        truncate,
        ..for_access(read, write)
    }
}

/// What user 0 opens it with then.
pub(crate) fn owned(flags: OpenFlags) -> CallFlags
    ensures { result ≡ bits.owned flags }
{
    for_access(reads(flags), writes(flags))
}

/// What makes a file that is opened.
pub(crate) fn making(flags: OpenFlags) -> CallFlags
    ensures { result ≡ bits.making flags }
{
    let exclusive = flags.contains(OpenFlags::EXCLUSIVE);
    CallFlags {
        create: true,
        exclusive,
        ..asked(flags)
    }
}

/// What makes a file that may not be there.
pub(crate) fn making_new() -> CallFlags
    ensures { result ≡ bits.making_new }
{
    CallFlags {
        create: true,
        exclusive: true,
        ..to_write()
    }
}

/// What a file is opened with to set its size.
pub(crate) fn to_write() -> CallFlags
    ensures { result ≡ bits.to_write }
{
    for_access(false, true)
}

/// Whether `st_mode` is that of a regular file.
pub(crate) fn is_regular(mode: u32) -> bool
    ensures { result ≡ bits.is_regular mode }
{
    mode & KIND_BITS == REGULAR
}
