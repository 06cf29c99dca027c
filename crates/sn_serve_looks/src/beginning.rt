//! INIT.
ghost use Rattle.std.specs.Prelude.{◌≡◌};
ghost use Rattle.sn_serve_looks.specs.Room as room;

use sn_fuse_flags::InitFlags;
use sn_fuse_replies::{Errno, Initialized};
use sn_plan::Checker;

/// The version of the protocol.
const MAJOR: u32 = 7;

const MINOR: u32 = 31;

/// The most bytes of a WRITE, seven pages: a half of the log then holds four.
const WRITE_MAX: u32 = 28_672;

/// The most pages of a READ: 65,536 bytes.
const PAGES: u16 = 16;

/// ASYNC_READ, ATOMIC_O_TRUNC, BIG_WRITES, DONT_MASK, HANDLE_KILLPRIV and MAX_PAGES.
const KNOWN: u32 = 0x48_0069;

/// These and POSIX_ACL, by which the system reads ACLs and checks by them.
const KNOWN_WITH_ACLS: u32 = 0x58_0069;

fn known(checker: Checker) -> u32
    ensures { result ≡ room.known checker }
{
    match checker {
        Checker::Server { .. } => KNOWN,
        Checker::System => KNOWN_WITH_ACLS,
    }
}

fn taken(checker: Checker, offered: InitFlags) -> InitFlags
    ensures { result ≡ room.taken checker offered }
{
    InitFlags(offered.0 & known(checker))
}

fn taken_up(checker: Checker, readahead: u32, offered: InitFlags) -> Initialized
    ensures { result ≡ room.taken_up checker readahead offered }
{
    Initialized {
        major: MAJOR,
        minor: MINOR,
        readahead,
        flags: taken(checker, offered),
        background: 0,
        congestion: 0,
        write: WRITE_MAX,
        time_granularity: 1,
        pages: PAGES,
    }
}

/// The version, and nothing else.
fn version() -> Initialized
    ensures { result ≡ room.version }
{
    Initialized {
        major: MAJOR,
        minor: MINOR,
        readahead: 0,
        flags: InitFlags(0),
        background: 0,
        congestion: 0,
        write: 0,
        time_granularity: 0,
        pages: 0,
    }
}

/// INIT: what a server takes of what the system offers. A later major version is told this one, with which the system begins again. `EINVAL` for an
/// earlier one.
///
/// Proved: INIT is answered with version 7.31, and of the flags that the system offers with those that are known here: that for ACLs exactly where
/// the system checks.
pub fn init(
    checker: Checker,
    major: u32,
    readahead: u32,
    offered: InitFlags,
) -> Result<Initialized, Errno>
    ensures { result ≡ room.init checker major readahead offered }
{
    if major < MAJOR {
        return Err(Errno::EINVAL);
    }
    if major == MAJOR {
        return Ok(taken_up(checker, readahead, offered));
    }
    Ok(version())
}
