//! Why no more messages are answered.
ghost use Rattle.std.specs.Prelude.{◌≡◌};
ghost use Rattle.sn_serve_loop.specs.declared.stop.Stop.TheVariants.{Memory as no_memory};

use std::alloc::AllocError;
use std::io;

/// Why no more messages are answered.
#[derive(Drop)]
pub enum Stop {
    /// The input has ended: the mount is gone.
    Ended,
    /// What came is no message.
    Broken,
    /// Memory was refused, for a message or for a reply without data.
    Memory,
    /// The input couldn't be read.
    Unread(io::Error),
    /// The output didn't take a reply.
    Unwritten(io::Error),
}

impl From<AllocError> for Stop {
    ghost from_gives = { λ _ stop. stop ≡ no_memory };

    fn from(_error: AllocError) -> Stop {
        Stop::Memory
    }
}
