//! A call for which all is there that it needs.
ghost use Rattle.std.specs.Prelude.{◌≡◌, ◌+◌, ◌-◌, ◌≤◌, ◌^◌, ◌<◌, false, true, IsTrue, IfNone, OnErr, OnOk, is_some, if◌then◌else◌};
ghost use Rattle.sn_caller.specs.Called.{HasRoom as HasCallRoom};
ghost use Rattle.sn_desc.specs.InUse.{live_in};
ghost use Rattle.sn_limits.specs.Versions.{limits_written};
ghost use Rattle.sn_live_world.specs.Turned.{Turns as CanTurnOver};
ghost use Rattle.sn_live_world.specs.World.{HasDrops, IsOver, descriptors_of, nameless_of, point_of, room_of};
ghost use Rattle.sn_model.specs.Machine as machine;
ghost use Rattle.sn_model.specs.Outcomes.{is_opening};
ghost use Rattle.sn_model.specs.Steps.{asks_for_point};
ghost use Rattle.sn_sound.specs.Logs.{HasAgeLeft};
ghost use Rattle.sn_held.specs.Rooms.{charged_behind, dropping};
ghost use Rattle.sn_events.specs.Answers.{is_fitting};
ghost use Rattle.sn_fs.specs.Filesystem.{IsFs, has_stopped, held, tree_of};
ghost use Rattle.sn_events.specs.Serving.{Serves, TellsLack, Turns, has_room_of, reply_to};

use crate::Fs;
use sn_changed::changed_laws;
use sn_device::Device;
use sn_layout::{LARGEST_AGE, RootBody};
use sn_limits::Limits;
use sn_live_world::{CallFault, Picked};
use sn_model::{Call, Caller, Errno, Outcome, Refusal, Reply};
use sn_record::Payload;
use std::alloc::AllocError;

/// Whether a mount could make a point of what is logged on top of this root.
fn has_age_left(root: &RootBody) -> bool
    ensures left { IsTrue result → HasAgeLeft root.now }
    ensures over { result ≡ false → HasAgeLeft root.now → ⊥ }
{
    root.generation < LARGEST_AGE && root.epoch <= LARGEST_AGE - 2
}

pub(crate) fn refused(errno: Errno) -> Reply
    ensures { result ≡ machine.refused errno }
{
    Reply::Refused(Refusal::plain(errno))
}

/// What a call is answered that has no outcome.
pub(crate) fn reply_of(fault: CallFault) -> Reply
    ensures { result ≡ reply_to fault }
{
    match fault {
        CallFault::Refused(refusal) => Reply::Refused(refusal),
        CallFault::Memory => refused(Errno::Enomem),
        CallFault::Read => refused(Errno::Eio),
    }
}

impl<D: Device> Fs<D> {
    /// Makes room for the file that a caller opens, and for its drop. Where memory is refused nothing changes.
    fn prepare(&mut self, caller: &Caller) -> Result<(), AllocError>
        requires running { has_stopped self.old ≡ false }
        requires sound { IsFs self.old }
        ensures held { held self.new ≡ held self.old }
        ensures room { OnOk result (HasCallRoom caller.now (room_of self.new.world)) }
        ensures drops { OnOk result (HasDrops self.new.world (live_in (descriptors_of self.old.world) + (if is_opening caller.now then 1 else 0))) }
        ensures descriptors { descriptors_of self.new.world ≡ descriptors_of self.old.world }
        ensures opening { OnErr result (is_opening caller.now ≡ true) }
        ensures nameless { nameless_of self.new.world ≡ nameless_of self.old.world }
        ensures point { point_of self.new.world ≡ point_of self.old.world }
        ensures rest { self.new ≡ record self.old { world = self.new.world } }
        ensures sound { IsFs self.new }
    {
        self.world.prepare_caller(caller)
    }

    /// Whether a call with this outcome fits, on the root that counts. So it does on that of the point in progress.
    fn fits(&self, outcome: &Outcome<'_>) -> bool
        ensures exact { IsOver self.now.world (tree_of self.now) → result ≡ is_fitting (held self.now) outcome.now }
        ensures within { IsTrue result → charged_behind limits_written self.now.room (nameless_of self.now.world) outcome.now < 2 ^ 32 }
    {
        self.room
            .fits(&Limits::WRITTEN, self.world.nameless(), outcome)
    }

    /// Whether a call fits that asks for a point and has this outcome: one that is charged for nothing always does.
    pub(crate) fn has_room_for(&self, outcome: &Outcome<'_>) -> bool
        ensures { IsOver self.now.world (tree_of self.now) → result ≡ has_room_of (held self.now) outcome.now }
    {
        outcome.charge == 0 || self.fits(outcome)
    }

    /// Whether a change lacks something that a whole point gives: room for its record in the log or for its charge on
    /// the disk, a number that isn't kept back, or a root that another one can follow on.
    fn lacks(&self, payload: &Payload<'_>, fits: bool) -> bool
        ensures { TellsLack result (held self.now) payload.now fits }
    {
        !fits
            || !self.log.has_room(payload)
            || self.world.gives_kept(payload.change())
            || !has_age_left(&self.base.root)
    }

    /// Sets what becomes of a caller, and takes the files that go with it out of what changed. Of so many files without
    /// names those that are left no more are counted as dropped.
    fn turn(&mut self, session: u32, caller: Caller, lost: Option<u16>, parked: u32)
        requires opens { HasCallRoom caller (room_of self.old.world) }
        requires drops { HasDrops self.old.world (live_in (descriptors_of self.old.world)
            + (if is_opening caller then 1 else 0) + (if is_some lost then 1 else 0)) }
        requires count { self.old.room.dropped + parked < 2 ^ 64 }
        ensures turned { CanTurnOver self.old.world (tree_of self.old) session caller lost → Turns session caller parked (held self.old) (held self.new) }
        ensures over { CanTurnOver self.old.world (tree_of self.old) session caller lost → IsOver self.new.world (tree_of self.new) }
        ensures fewer { nameless_of self.new.world ≤ nameless_of self.old.world }
        ensures few { nameless_of self.new.world < 2 ^ 32 }
        ensures room { self.new.room ≡ dropping (parked - nameless_of self.new.world) self.old.room }
        ensures drops { HasDrops self.new.world (live_in (descriptors_of self.new.world)) }
        ensures point { point_of self.new.world ≡ point_of self.old.world }
        ensures rest { self.new ≡ record self.old { world = self.new.world; room = self.new.room } }
    {
        self.world.set_caller(session, caller, lost);
        self.room
            .drop_files(parked.saturating_sub(self.world.nameless()));
    }

    /// Answers a call that asks for no point, where its outcome lacks nothing that a point gives. Else nothing has changed. The
    /// point in progress, if any, stays where it is.
    pub(crate) fn serve(&mut self, session: u32, call: &Call) -> Option<Reply>
        requires running { has_stopped self.old ≡ false }
        requires sound { IsFs self.old }
        requires alone { asks_for_point call.now ≡ false }
        ensures served { IsTrue D.tells_bytes → Serves result (held self.old) session call.now (held self.new) (has_stopped self.new) }
        ensures running { IfNone result (has_stopped self.new ≡ false) }
        ensures point { (held self.new).point ≡ (held self.old).point }
        ensures sound { IsFs self.new }
    {
        changed_laws();
        let outcome = match self.decide(session, call) {
            Ok(outcome) => outcome,
            Err(fault) => return Some(reply_of(fault)),
        };
        let fits = self.fits(&outcome);
        let Outcome {
            change,
            caller,
            told,
            charge,
            ..
        } = outcome;
        let Ok(()) = self.prepare(&caller) else {
            return Some(refused(Errno::Enomem));
        };
        // Over a device that tells its bytes a number is left for what was decided, and it has a record.
        let Some(Picked { change, caller }) = self.world.choose(change, caller) else {
            return Some(refused(Errno::Eio));
        };
        match change {
            Some(change) => {
                let Some(payload) = Payload::of(&change) else {
                    return Some(refused(Errno::Eio));
                };
                if self.lacks(&payload, fits) {
                    return None;
                }
                match self.log_change(&payload, charge) {
                    // A file that goes with its last name was charged by its call.
                    Ok(lost) => self.turn(session, caller, lost, 0),
                    Err(fault) => {
                        self.has_stopped = fault.stops();
                        return Some(refused(fault.errno()));
                    }
                }
                Some(told)
            }
            None => {
                // One that a close or a logout drops is parked.
                let parked = self.world.nameless();
                self.turn(session, caller, None, parked);
                Some(told)
            }
        }
    }
}
