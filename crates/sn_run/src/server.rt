//! What serves events.
ghost use Rattle.std.specs.Prelude.{◌≡◌, IsTrue};
ghost use Rattle.sn_model.specs.declared.call.Event.TheVariants as event;
ghost use Rattle.sn_model.specs.Machine as machine;
ghost use Rattle.sn_events.specs.Answers.{Answers};
ghost use Rattle.sn_run.specs.Ending.{EndsSo, IsLastEnd, end_for};
ghost use Rattle.sn_run.specs.Restarting.{Remounts};
ghost use Rattle.sn_run.specs.Servers.{IsServer, is_stopped, standing};

use sn_device::Device;
use sn_fs::{Fs, StillMounted, Unmounted, mount};
use sn_model::{Call, End, Errno, Refusal, Reply};
use std::alloc::Global;

/// A file system that answers events.
#[derive(Drop)]
pub enum Server<D: Device> {
    Mounted(Fs<D>),
    /// The last mount failed. Every event but a restart is refused with ESTOPPED.
    Unmounted(D),
}

fn refused(errno: Errno) -> Reply
    ensures { result ≡ machine.refused errno }
{
    Reply::Refused(Refusal::plain(errno))
}

/// How a run ends whose last unmount is refused.
fn end_of(errno: Errno) -> End
    ensures is { result ≡ end_for errno }
    ensures told { IsLastEnd result }
{
    match errno {
        Errno::Enomem => End::Memory,
        _ => End::Stopped,
    }
}

/// Mounts a device, for a restart.
fn remount<D: Device>(alloc: Global, device: D) -> (Reply, Server<D>)
    ensures mounts { IsTrue D.tells_bytes → Remounts result.0 (D.status device) (D.disk device) (standing result.1) (is_stopped result.1) }
    ensures sound { IsServer result.1 }
{
    match mount(alloc, device) {
        Ok(fs) => (Reply::Done, Server::Mounted(fs)),
        Err(Unmounted { fault, device }) => (Reply::Unmounted(fault), Server::Unmounted(device)),
    }
}

impl<D: Device> Server<D> {
    /// Whether it has stopped: what is on the disk isn't known, or it isn't mounted.
    pub fn is_stopped(&self) -> bool
        ensures { result ≡ is_stopped self.now }
    {
        match self {
            Server::Mounted(fs) => fs.has_stopped(),
            Server::Unmounted(_) => true,
        }
    }

    /// Unmounts for the last time: hands the device back, and says how the run ends. `Clean` where it is unmounted, `Memory` where
    /// memory was refused for that, and `Stopped` where it was refused otherwise, had stopped, or isn't mounted.
    pub fn finish(self) -> (End, D)
        requires { IsServer self }
        ensures ended { IsTrue D.tells_bytes → EndsSo result.0 (standing self) (is_stopped self) (D.disk result.1) (D.status result.1) }
        ensures told { IsLastEnd result.0 }
    {
        let fs = match self {
            Server::Mounted(fs) => fs,
            Server::Unmounted(device) => return (End::Stopped, device),
        };
        match fs.unmount() {
            Ok(device) => (End::Clean, device),
            Err(StillMounted { errno, fs }) => (end_of(errno), fs.into_device()),
        }
    }

    /// Answers a call, with ESTOPPED where nothing is mounted.
    ///
    /// Proved, also of `Server::step` and `Server::restart`: Each reply is that of a step of the machine, from each state
    /// that the server means; a restart makes a whole point and then finds the settled world, or the cause why it doesn't
    /// mount, after which all but a restart is refused, and where the point is refused nothing has changed.
    /// Proved, also of `Server::step` and `Server::restart`: `EIO`, and the fault M6 of a restart, come only where the
    /// device failed in that event or is at its end, `ENOSPC` only where the call doesn't fit right after a whole
    /// consistency point that it made, and no count of the device falls.
    /// Proved, also of `Server::step` and `Server::restart`: A refused event, and all but a restart in a stopped mount,
    /// change nothing that is held, but for the device's count of a read that failed.
    /// Proved, also of `Server::step` and `Server::restart`: A call that is answered moves the log by its record, charges
    /// its charge, and leaves the point in progress where it is, unless it finishes that or makes a whole one.
    /// Proved, also of `Server::step` and `Server::restart`: A crash at any moment of an event leaves what a mount finds of
    /// the state before it or of the one after it, and once it is answered of the one after it; a stopped machine's state is
    /// two worlds.
    pub fn call(&mut self, session: u32, call: &Call) -> Reply
        requires { IsServer self.old }
        ensures answered { IsTrue D.tells_bytes → Answers (event.Call session call.now) result
            (standing self.old) (is_stopped self.old) (standing self.new) (is_stopped self.new) }
        ensures sound { IsServer self.new }
    {
        match self {
            Server::Mounted(fs) => fs.call(session, call),
            Server::Unmounted(_) => refused(Errno::Estopped),
        }
    }

    /// Goes one step on with a consistency point; it is ESTOPPED where nothing is mounted.
    pub fn step(&mut self) -> Reply
        requires { IsServer self.old }
        ensures answered { IsTrue D.tells_bytes → Answers event.Step result
            (standing self.old) (is_stopped self.old) (standing self.new) (is_stopped self.new) }
        ensures sound { IsServer self.new }
    {
        match self {
            Server::Mounted(fs) => fs.step(),
            Server::Unmounted(_) => refused(Errno::Estopped),
        }
    }

    /// Unmounts and mounts, or mounts alone where it has stopped. Where the unmount is refused, nothing has changed, and where
    /// the mount fails, the reply has its cause, and all but a restart is refused from then on.
    ///
    /// Proved: A restart that fails, also of a stopped mount, leaves no other world than the one that the disk was an image
    /// of, from its first sync on.
    pub fn restart(self, alloc: Global) -> (Reply, Server<D>)
        requires { IsServer self }
        ensures answered { IsTrue D.tells_bytes → Answers event.Restart result.0
            (standing self) (is_stopped self) (standing result.1) (is_stopped result.1) }
        ensures sound { IsServer result.1 }
    {
        let fs = match self {
            Server::Mounted(fs) => fs,
            Server::Unmounted(device) => return remount(alloc, device),
        };
        if fs.has_stopped() {
            return remount(alloc, fs.into_device());
        }
        match fs.unmount() {
            Ok(device) => remount(alloc, device),
            Err(StillMounted { errno, fs }) => (refused(errno), Server::Mounted(fs)),
        }
    }
}
