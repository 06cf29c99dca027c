//! The sessions of a server.
ghost use Rattle.std.specs.Prelude.{◌≡◌, ◌<◌};
ghost use Rattle.sn_callers.specs.Sessions as sessions;

/// The session of user 0 that looks at what is there, for as long as a server runs.
pub const LOOKER: u32 = 0;

/// The session of who asks, for one message.
pub const ASKER: u32 = 1;

/// How many descriptors a session has.
const DESCRIPTORS: u64 = 64;

/// The session whose descriptor an open file with this handle has: 0 for the first 64 handles, then 2 and so on up to 63, each for
/// 64 of them.
pub fn session_of(handle: u64) -> u32
    requires { handle < 4032 }
    ensures { result ≡ sessions.session_of handle }
{
    let block = handle / DESCRIPTORS;
    if block == 0 {
        LOOKER
    } else {
        (block + 1) as u32
    }
}
