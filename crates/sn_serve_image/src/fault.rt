//! Why a serve failed.
ghost use Rattle.std.specs.Prelude.{◌≡◌};
ghost use Rattle.sn_serve_image.specs.Serves as serves;

use sn_core::{End, MountFault};
use sn_serve_loop::Stop;

/// Why a serve failed.
#[derive(Clone, Copy, Debug)]
pub enum ServeFault {
    /// There was no mount.
    Mount(MountFault),
    /// Memory was refused.
    Memory,
    /// The mount has stopped, or its end was refused.
    Stopped,
    /// What came is no message.
    Message,
    /// The input couldn't be read.
    Input,
    /// The output didn't take a reply.
    Output,
}

fn fault_of(stop: Stop) -> Result<(), ServeFault>
    ensures { result ≡ serves.fault_of stop }
{
    match stop {
        Stop::Ended => Ok(()),
        Stop::Broken => Err(ServeFault::Message),
        Stop::Memory => Err(ServeFault::Memory),
        Stop::Unread(_) => Err(ServeFault::Input),
        Stop::Unwritten(_) => Err(ServeFault::Output),
    }
}

/// What is told of a serve once its mount is ended.
pub(crate) fn outcome_of(end: End, stop: Stop) -> Result<(), ServeFault>
    ensures { result ≡ serves.outcome_of end stop }
{
    match end {
        End::Clean => fault_of(stop),
        End::Memory => Err(ServeFault::Memory),
        End::Stopped => Err(ServeFault::Stopped),
        End::Mount(fault) => Err(ServeFault::Mount(fault)),
    }
}
