ghost use Rattle.std.specs.Prelude.{◌≡◌, ℕ, false, IfOk, OnErr, OnOk};
ghost use Rattle.sn_model.specs.NameTree.{IsTree};
ghost use Rattle.sn_model.specs.Settling.{settle};
ghost use Rattle.sn_limits.specs.Versions.{limits_written};
ghost use Rattle.sn_model.specs.Worlds.{IsWorld};
ghost use Rattle.sn_plain_world.specs.PlainRuns.{PlainStep};
ghost use Rattle.sn_model.specs.World.{new_world};
ghost use Rattle.sn_plain_world.specs.Served.{MakesChange, Serves, memory_for};
ghost use Rattle.sn_numbers.specs.Live.{live_of};
ghost use Rattle.sn_number_table.specs.Numbers.{kept_after, since_after};

use crate::fault::WorldError;
use crate::view::PlainView;
use sn_caller::Chosen;
use sn_desc::Sessions;
use sn_limits::Limits;
use sn_model::{AskedPoint, Call, Change, Errno, Event, Outcome, Progress, Refusal, Reply};
use sn_numbers::NumberedTree;
use sn_plain::ApplyError;
use std::alloc::{AllocError, Global};

/// The live tree, and who is logged in.
#[derive(Drop)]
pub struct PlainWorld {
    pub(crate) tree: NumberedTree,
    pub(crate) sessions: Sessions,
    // Only in a name tree does the way up decide whether a directory is below another, as a rename asks.
    ghost whole: { ∥ IsTree limits_written (live_of tree) ∥₁ },
}

/// Whether there is memory for what a point makes of the snapshots: for a new one's tree there is none.
fn memory_for(point: &AskedPoint) -> Result<(), WorldError>
    ensures { result ≡ memory_for point.now }
{
    match point {
        AskedPoint::Freezes(_) => Err(WorldError::Memory),
        _ => Ok(()),
    }
}

impl PlainWorld {
    ghost use Rattle.sn_plain_world.specs.Plain.{kept_of, kept_since_of, numbered_of, room_of, world_of};

    /// A root directory alone, nobody logged in, and no number kept back.
    pub fn new(alloc: Global) -> Result<PlainWorld, AllocError>
        ensures world { IfOk result (λ w. world_of w ≡ new_world) }
        ensures kept { IfOk result (λ w. (n : ℕ) → kept_of w n ≡ false) }
        ensures since { IfOk result (λ w. (n : ℕ) → kept_since_of w n ≡ false) }
        ensures whole { IfOk result (λ w. IsWorld limits_written (world_of w)) }
    {
        let tree = NumberedTree::new(alloc)?;
        let sessions = Sessions::new(alloc)?;
        Ok(PlainWorld { tree, sessions })
    }

    /// The live tree, as walks and decisions see it.
    pub(crate) fn view(&self) -> PlainView<'_>
        ensures { result.tree.now ≡ self.now.tree }
    {
        PlainView { tree: &self.tree }
    }

    /// Makes a change of the live tree.
    pub fn apply(&mut self, alloc: Global, change: &Change<'_>) -> Result<(), ApplyError>
        requires { IsTree limits_written (world_of self.old).live }
        ensures made { MakesChange result change.now (world_of self.old) (world_of self.new) }
        ensures kept { OnOk result ((n : ℕ) → kept_of self.new n ≡ kept_after change.now (kept_of self.old) n) }
        ensures since { OnOk result ((n : ℕ) → kept_since_of self.new n ≡ since_after change.now (kept_of self.old) (kept_since_of self.old) n) }
        ensures same { OnErr result ((n : ℕ) → kept_of self.new n ≡ kept_of self.old n) }
        ensures same_since { OnErr result ((n : ℕ) → kept_since_of self.new n ≡ kept_since_of self.old n) }
        ensures room { room_of self.new ≡ room_of self.old }
    {
        self.tree.apply(alloc, &Limits::WRITTEN, change)
    }

    /// Logs everybody out, and removes all files that no name stands for. No number is kept back any more.
    pub fn settle(&mut self)
        ensures world { world_of self.new ≡ settle (world_of self.old) }
        ensures kept { (n : ℕ) → kept_of self.new n ≡ false }
        ensures since { (n : ℕ) → kept_since_of self.new n ≡ false }
    {
        self.tree.settle();
        self.sessions.clear();
    }

    fn served(&mut self, alloc: Global, session: u32, call: &Call) -> Result<Reply, WorldError>
        requires { IsWorld limits_written (world_of self.old) }
        ensures served { Serves (numbered_of self.old) session call.now result (numbered_of self.new) }
        ensures whole { IsWorld limits_written (world_of self.new) }
    {
        let Outcome {
            change,
            caller,
            told,
            point,
            ..
        } = self.decide(alloc, session, call)?;
        memory_for(&point)?;
        self.prepare(&caller)?;
        let Chosen {
            change,
            caller,
            lost,
        } = self.choose(change, caller);
        match change {
            Some(change) => match self.apply(alloc, &change) {
                Ok(()) => {}
                // What was decided can be applied, so that only memory can be lacking.
                Err(_) => return Err(WorldError::Memory),
            },
            None => {}
        }
        self.set_caller(session, caller, lost);
        Ok(told)
    }

    /// Answers a call.
    fn call(&mut self, alloc: Global, session: u32, call: &Call) -> Reply
        requires { IsWorld limits_written (world_of self.old) }
        ensures step { PlainStep (numbered_of self.old) (Event.Call session call.now) result (numbered_of self.new) }
        ensures whole { IsWorld limits_written (world_of self.new) }
    {
        match self.served(alloc, session, call) {
            Ok(reply) => reply,
            Err(WorldError::Refused(refusal)) => Reply::Refused(refusal),
            Err(WorldError::Memory) => Reply::Refused(Refusal::plain(Errno::Enomem)),
        }
    }

    /// Unmounts and mounts: the tree stays, where no file is without a name.
    fn restart(&mut self) -> Reply
        requires { IsWorld limits_written (world_of self.old) }
        ensures step { PlainStep (numbered_of self.old) Event.Restart result (numbered_of self.new) }
        ensures whole { IsWorld limits_written (world_of self.new) }
    {
        self.settle();
        Reply::Done
    }

    /// Answers an event.
    ///
    /// Proved: A world in memory keeps no frozen trees: a call that would make a snapshot finds no memory.
    pub fn answer(&mut self, alloc: Global, event: &Event) -> Reply
        requires { IsWorld limits_written (world_of self.old) }
        ensures step { PlainStep (numbered_of self.old) event.now result (numbered_of self.new) }
        ensures whole { IsWorld limits_written (world_of self.new) }
    {
        match event {
            Event::Call { session, call } => self.call(alloc, *session, call),
            Event::Step => Reply::Progress(Progress::Done),
            Event::Restart => self.restart(),
        }
    }
}
