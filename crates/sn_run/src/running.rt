//! Whole runs.
ghost use Rattle.std.specs.Prelude.{◌≡◌, ◌⊎◌, ◌≤◌, [], IsTrue, IfOk, length, vec_capacity};
ghost use Rattle.sn_device.specs.Disk.{reads};
ghost use Rattle.sn_limits.specs.Versions.{limits_written};
ghost use Rattle.sn_model.specs.Machine.{Anything, Lacks, WholeRun};
ghost use Rattle.sn_model.specs.World.{World};
ghost use Rattle.sn_model.specs.declared.end.End.TheVariants as ending;
ghost use Rattle.sn_model.specs.declared.fault.MountFault.{MountFault};
ghost use Rattle.sn_held.specs.Images.{IsImage};
ghost use Rattle.sn_run.specs.Runs.{AnswersAll, IsRunOf, LacksRoot, RunsTo};
ghost use Rattle.sn_run.specs.Servers.{IsServer, is_stopped, standing};

use crate::{Server, Watch};
use sn_device::Device;
use sn_fs::{Unmounted, mount};
use sn_model::{End, Event, Reply};
use std::alloc::{AllocError, Global};

/// What a run has answered, how it ended, and the device.
#[derive(Drop)]
pub struct Ran<D: Device> {
    /// A reply for each event; none where there was no mount.
    pub replies: Vec<Reply>,
    pub end: End,
    pub device: D,
}

/// Room for the replies to so many events.
fn room_for(alloc: Global, count: usize) -> Result<Vec<Reply>, AllocError>
    ensures { IfOk result (λ v. (v.items ≡ []) × (count ≤ vec_capacity v)) }
{
    Vec::with_capacity(alloc, count)
}

/// Answers events in their order, into a list that has room for the replies.
fn answer_all<D: Device, W: Watch>(
    alloc: Global,
    server: Server<D>,
    events: &[Event],
    replies: &mut Vec<Reply>,
    watch: &mut W,
) -> Server<D>
    requires sound { IsServer server }
    requires empty { replies.old.items ≡ [] }
    requires room { length events.now ≤ vec_capacity replies.old }
    ensures answered { IsTrue D.tells_bytes → AnswersAll events.now replies.new.items
        (standing server) (is_stopped server) (standing result) (is_stopped result) }
    ensures counted { length replies.new.items ≡ length events.now }
    ensures sound { IsServer result }
{
    let mut server = server;
    for event in events {
        let reply = match event {
            Event::Call { session, call } => server.call(*session, call),
            Event::Step => server.step(),
            Event::Restart => {
                let (reply, next) = server.restart(alloc);
                server = next;
                reply
            }
        };
        replies.push_reserved(reply);
        watch.answered(replies.len(), events.len());
    }
    server
}

/// Mounts a device, answers events in their order, and unmounts.
///
/// The room for the replies is looked for first: without it nothing is done, and the end is `Memory`.
/// Where there is no mount the end has its cause, and no event is answered. It is `Stopped` where a
/// failure of the device has stopped the mount, or a restart found none, and else what the last unmount makes
/// it, which is a whole consistency point: `Clean`, `Memory`, or `Stopped` where the device fails or no root
/// can follow. After each event `watch` learns how many were answered.
///
/// Proved: For every list of events, restarts among them, the replies and the end are a whole run of the machine from the
/// world that the disk is an image of, whose frozen trees are those of the newest root's snapshots.
/// Proved: Where the disk isn't formatted, neither slot is open, or a root is of a version that isn't known, the run ends
/// with that fault and no reply, unless memory was refused or the device failed.
/// Proved: The events are answered one after the other, each as `Server` says, and over any device each has its reply,
/// unless there was no mount.
/// Proved: Where the run ends `Clean` the newest root has all of the world, settled.
/// Proved: A crash in an event leaves what a run leaves that is cut short there or later, after all replies given before:
/// what was answered is in it, and at most that event besides.
/// Proved: From the mount's first sync to the first event a crash leaves the world that was found, and only where no event
/// was answered may nothing have been written.
/// Proved: The device's counts begin with those of the device that came in and end with those of the one that goes out; the
/// first mount makes those that `mount` says.
/// Proved: After the last event the mount is unmounted with a whole consistency point, and a crash at any moment of it
/// leaves all that was answered.
/// Proved: The end is `Clean` where that point is made, `Memory` where memory is refused for it, and `Stopped` where the
/// device fails in it, no root can follow, or the machine is stopped after the last event; without room for the replies
/// nothing is done.
pub fn run<D: Device, W: Watch>(alloc: Global, device: D, events: &[Event], watch: &mut W) -> Ran<D>
    ensures runs { IsTrue D.tells_bytes → RunsTo result.end events.now result.replies.items
        (D.disk device) (D.status device) (D.disk result.device) (D.status result.device) }
    ensures machine { IsTrue D.tells_bytes → (world : World) → IsImage (reads (D.disk device)) world
        → IsRunOf world events.now result.replies.items result.end (D.disk device) (D.disk result.device) }
    ensures unfit { IsTrue D.tells_bytes → (fault : MountFault) → LacksRoot (D.status device).sectors (reads (D.disk device)) fault
        → WholeRun Anything limits_written (Lacks fault) events.now result.replies.items result.end }

    // Over any device: each event has its reply where there was a mount.
    ensures counted { (result.end ≡ ending.Clean) ⊎ (result.end ≡ ending.Stopped) → length result.replies.items ≡ length events.now }
{
    let Ok(mut replies) = room_for(alloc, events.len()) else {
        return Ran {
            replies: Vec::new(alloc),
            end: End::Memory,
            device,
        };
    };
    match mount(alloc, device) {
        Ok(fs) => {
            let server = answer_all(alloc, Server::Mounted(fs), events, &mut replies, watch);
            let (end, device) = server.finish();
            Ran {
                replies,
                end,
                device,
            }
        }
        Err(Unmounted { fault, device }) => Ran {
            replies,
            end: End::Mount(fault),
            device,
        },
    }
}
