//! Calls.
ghost use Rattle.std.specs.Prelude.{◌≡◌, ℕ, false, true, None, Ok, IsTrue};
ghost use Rattle.sn_held.specs.Held.{Runs};
ghost use Rattle.sn_limits.specs.Versions.{limits_written};
ghost use Rattle.sn_model.specs.Steps.{asks_for_point, decision};
ghost use Rattle.sn_model.specs.declared.call.Call.{Call as TheCall};
ghost use Rattle.sn_model.specs.World.{World};
ghost use Rattle.sn_sound.specs.Maps.{free_blocks};
ghost use Rattle.sn_model.specs.declared.call.Event.TheVariants as event;
ghost use Rattle.sn_events.specs.Answers.{Answers};
ghost use Rattle.sn_events.specs.Serving.{IsAsked, IsToAsk, ServesAsked};
ghost use Rattle.sn_fs.specs.Filesystem.{IsFs, has_stopped, held};

use crate::Fs;
use crate::pointing::errno_of;
use crate::serving::{refused, reply_of};
use sn_device::Device;
use sn_model::{AskedPoint, Call, Errno, Outcome, Reply};
use sn_record::payloads_fit;

impl<D: Device> Fs<D> {
    /// Whether a failure of the device has stopped it, so that every call is refused.
    pub fn has_stopped(&self) -> bool
        ensures { result ≡ has_stopped self.now }
    {
        self.has_stopped
    }

    /// The free blocks of the root that counts: the data blocks that neither its tree reaches nor one of its snapshots.
    /// What was logged since takes some of them with the next consistency point.
    ///
    /// Proved: The free blocks are those that the root that counts leaves free.
    pub fn free(&self) -> u32
        ensures room { result ≡ (held self.now).room.free }
        ensures blocks { (world : World) (r : Runs (held self.now) world) → result ≡ free_blocks (held self.now).at.blocks r.store r.root }
    {
        self.room.free()
    }

    /// Makes the whole consistency point that a call asks for, whose tests have passed, and which fits, where no other is in
    /// progress.
    fn point_for(&mut self, outcome: Outcome<'_>) -> Reply
        requires running { has_stopped self.old ≡ false }
        requires sound { IsFs self.old }
        requires between { (held self.old).point ≡ None }
        requires asked { IsTrue D.tells_bytes → IsAsked (held self.old) outcome }
        ensures answered { IsTrue D.tells_bytes → (session : ℕ) (c : TheCall) → asks_for_point c ≡ true → IsToAsk (held self.old) session c outcome.entry
            → ServesAsked result (held self.old) session c (held self.new) (has_stopped self.new) }
        ensures sound { IsFs self.new }
    {
        let Outcome { told, point, .. } = outcome;
        match self.make_asked(&point) {
            Ok(()) => told,
            Err(fault) => refused(errno_of(fault)),
        }
    }

    /// Answers a call that asks for a whole consistency point, whose tests have passed, where no other is in progress. One
    /// that is charged for something comes after a plain one where it doesn't fit.
    fn ask_between(&mut self, session: u32, call: &Call, outcome: Outcome<'_>) -> Reply
        requires running { has_stopped self.old ≡ false }
        requires sound { IsFs self.old }
        requires between { (held self.old).point ≡ None }
        requires asks { asks_for_point call.now ≡ true }
        requires decided { IsTrue D.tells_bytes → decision limits_written (held self.old).world session call.now ≡ Ok outcome }
        ensures answered { IsTrue D.tells_bytes → Answers (event.Call session call.now) result
            (held self.old) false (held self.new) (has_stopped self.new) }
        ensures sound { IsFs self.new }
    {
        if self.has_room_for(&outcome) {
            return self.point_for(outcome);
        }
        if let Err(fault) = self.make_point(&AskedPoint::Plain) {
            return refused(errno_of(fault));
        }
        if !self.has_room_for(&outcome) {
            return refused(Errno::Enospc);
        }
        self.point_for(outcome)
    }

    /// Answers a call that asks for a whole consistency point. It is made once the call's tests have passed, after the one in
    /// progress, and makes of the snapshots what the call asks for.
    fn ask(&mut self, session: u32, call: &Call) -> Reply
        requires running { has_stopped self.old ≡ false }
        requires sound { IsFs self.old }
        requires asks { asks_for_point call.now ≡ true }
        ensures answered { IsTrue D.tells_bytes → Answers (event.Call session call.now) result
            (held self.old) (has_stopped self.old) (held self.new) (has_stopped self.new) }
        ensures sound { IsFs self.new }
    {
        let outcome = match self.decide(session, call) {
            Ok(outcome) => outcome,
            Err(fault) => return reply_of(fault),
        };
        if let Err(fault) = self.finish() {
            return refused(errno_of(fault));
        }
        self.ask_between(session, call, outcome)
    }

    /// Whether no consistency point is in progress.
    fn is_between(&self) -> bool
        ensures { IsTrue result → (held self.now).point ≡ None }
    {
        self.going.is_none()
    }

    /// Answers a call that asks for no point, where none is in progress: after a whole one, where it lacks something.
    fn serve_between(&mut self, session: u32, call: &Call) -> Reply
        requires running { has_stopped self.old ≡ false }
        requires sound { IsFs self.old }
        requires alone { asks_for_point call.now ≡ false }
        requires between { (held self.old).point ≡ None }
        ensures answered { IsTrue D.tells_bytes → Answers (event.Call session call.now) result
            (held self.old) false (held self.new) (has_stopped self.new) }
        ensures sound { IsFs self.new }
    {
        payloads_fit();
        if let Some(reply) = self.serve(session, call) {
            return reply;
        }
        if let Err(fault) = self.make_point(&AskedPoint::Plain) {
            return refused(errno_of(fault));
        }
        match self.serve(session, call) {
            Some(reply) => reply,
            None => refused(Errno::Enospc),
        }
    }

    /// Answers a call. Once it is answered, a crash loses nothing of it. Where the log has no room for its record, the
    /// disk none for its charge, or no number is left but those kept back, the consistency point in progress is finished, and
    /// a whole one comes where that isn't enough: so ENOSPC is returned only where the call doesn't fit after that. So it
    /// does where the call asks for one. EIO comes where the device fails. Where that was in a read, nothing has changed; in
    /// a write or a sync it stops the mount: then every call is ESTOPPED.
    ///
    /// Proved: Each reply is one of the machine, from each state that the mounted file system means; a running one is over
    /// the tree of the root that counts, as the device has it, seen through what changed since, with the frozen trees of its
    /// snapshots and with who is logged in.
    /// Proved: A crash at any moment of a call leaves the settled world from before it or the one after it, and once the
    /// call is answered the one after it alone, or after an `EIO` that stopped the mount either.
    /// Proved: `EIO` is returned only where the device failed or ended, and a failed write or sync stops the mount while a
    /// failed read doesn't; `ENOSPC` is returned only right after a whole consistency point that the call made, where its
    /// charge, with one for each file without a name and the reserve, is more than is free.
    /// Proved, also of `Fs::step`: A call makes a whole point, after the one in progress, only where it asks for one, its
    /// record has no room in the log, its charge with those since the root isn't free, no number is left but those kept
    /// back, or no root could follow on the one that counts.
    /// Proved, also of `Fs::step`: A call that is recorded has room for its record and its charge, a number, and a root that
    /// can follow; `ELIMIT` for age is returned only where a point is needed and no root can follow that leaves an age.
    /// Proved: A call that asks for a point, as `sync` does, is answered after one wherever its tests pass, so then the
    /// durable tree is the live one.
    /// Proved: A snapshot is made, or goes, by the point of the call that asks for it: after it the mount runs with the
    /// frozen trees that the model asks for, and a crash at any moment of the call leaves the snapshots from before or after
    /// it, and all else that was answered.
    /// Proved: Calls come between any two steps, and all promises of a call hold there: what they change is logged under the
    /// next epoch, charged on both roots, and is over what was frozen.
    /// Proved: Of such calls the numbers that are kept back, and the files that are dropped, are counted since the point
    /// began.
    /// Proved: Where memory is refused for a call, or a block that it needs can't be read, its session and arguments had
    /// passed; after its point, if it makes one, nothing was written, the world is as it was, and the mount continues.
    /// Proved: A call whose outcome is a change is recorded, also where the change alters nothing, with exactly the writes
    /// of its body's sectors and two more, and two syncs; where the device fails, with at most these.
    /// Proved: After its point, if it makes one, a call whose outcome is no change, or is refused otherwise, writes nothing;
    /// nor does one of a stopped mount.
    /// Proved: Whatever it answers, a call that needs no point writes in its half of the log alone.
    pub fn call(&mut self, session: u32, call: &Call) -> Reply
        requires { IsFs self.old }
        ensures answered { IsTrue D.tells_bytes → Answers (event.Call session call.now) result
            (held self.old) (has_stopped self.old) (held self.new) (has_stopped self.new) }
        ensures sound { IsFs self.new }
    {
        if self.has_stopped {
            return refused(Errno::Estopped);
        }
        if call.asks_for_point() {
            return self.ask(session, call);
        }
        if self.is_between() {
            return self.serve_between(session, call);
        }
        if let Some(reply) = self.serve(session, call) {
            return reply;
        }
        if let Err(fault) = self.finish() {
            return refused(errno_of(fault));
        }
        self.serve_between(session, call)
    }
}
