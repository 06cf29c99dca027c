ghost use Rattle.std.specs.Prelude.{◌≡◌, ◌≢◌, ◌≤◌, [], IfOk, length, vec_capacity};
ghost use Rattle.sn_plain_world.specs.Plain.{numbered_of, world_of};
ghost use Rattle.sn_model.specs.Machine.{Holds, OfMemory, WholeRun};
ghost use Rattle.sn_model.specs.World.{new_world};
ghost use Rattle.sn_limits.specs.Versions.{limits_written};
ghost use Rattle.sn_model.specs.Worlds.{IsWorld};
ghost use Rattle.sn_plain_world.specs.PlainRuns.{Numbered, PlainRun, new_numbered};

use crate::world::PlainWorld;
use sn_model::{End, Event, MountFault, Reply};
use std::alloc::{AllocError, Global};

/// Room for the replies to so many events.
fn room_for(alloc: Global, count: usize) -> Result<Vec<Reply>, AllocError>
    ensures { IfOk result (λ v. (v.items ≡ []) × (count ≤ vec_capacity v)) }
{
    Vec::with_capacity(alloc, count)
}

/// Answers events in their order, into a list that has room for the replies.
fn answer(alloc: Global, world: &mut PlainWorld, events: &[Event], replies: &mut Vec<Reply>)
    requires whole { IsWorld limits_written (world_of world.old) }
    requires empty { replies.old.items ≡ [] }
    requires room { length events.now ≤ vec_capacity replies.old }
    ensures { PlainRun (numbered_of world.old) events.now replies.new.items (numbered_of world.new) }
{
    for event in events {
        let reply = world.answer(alloc, event);
        replies.push_reserved(reply);
    }
}

/// Answers events in their order, from an empty root directory (0:0, mode 0755) on, with nobody
/// logged in. Each event has one reply. A new node has the least number that no node has, but for those
/// of files that went with their last descriptor since the last restart: they are given out only where
/// no other is left. There are no consistency points, so a step is always done, and a restart is never
/// refused. No frozen tree is kept: a call that would make a snapshot is refused with ENOMEM.
///
/// The room for the replies is looked for first, and then that for the tree and the sessions:
/// without either nothing is done. A run that finds none for the tree hands back the list with the
/// room for all replies.
///
/// Proved: For every list of events, restarts among them, the replies and the end are a whole run of the machine from the
/// empty world, without a device: each reply is the call's first refusal or its answer, each denial names its place and
/// entry, and a refusal changes nothing.
/// Proved: Where a run without a device ends well, a new node has the least number that no node has and that isn't kept
/// back, as are numbers of files that went with their last descriptor since the last restart, until one of them has to be
/// given out.
pub fn run_plain(alloc: Global, events: &[Event]) -> (Vec<Reply>, End)
    ensures run { WholeRun OfMemory limits_written (Holds new_world) events.now result.0.items result.1 }
    ensures numbers { result.1 ≡ End.Clean → (last : Numbered) × PlainRun new_numbered events.now result.0.items last }
    ensures nothing { result.1 ≢ End.Clean → result.0.items ≡ [] }
    ensures mount { result.1 ≡ End.Mount MountFault.Memory → length events.now ≤ vec_capacity result.0 }
{
    let Ok(mut replies) = room_for(alloc, events.len()) else {
        return (Vec::new(alloc), End::Memory);
    };
    let Ok(mut world) = PlainWorld::new(alloc) else {
        return (replies, End::Mount(MountFault::Memory));
    };
    answer(alloc, &mut world, events, &mut replies);
    (replies, End::Clean)
}
