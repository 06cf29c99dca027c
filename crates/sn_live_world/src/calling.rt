//! What becomes of whoever called, and of files that nobody has and that have no name.
ghost use Rattle.std.specs.Prelude.{◌≡◌, ◌+◌, ◌<◌, ◌≤◌, ◌==◌, ◌&&◌, ◌||◌, ℕ, true, OnErr, OnOk, is_some, length, if◌then◌else◌};
ghost use Rattle.sn_caller.specs.Called.{HasRoom};
ghost use Rattle.sn_caller.specs.Numbering.{has_closed};
ghost use Rattle.sn_desc.specs.InUse.{live_in};
ghost use Rattle.sn_live_world.specs.Dropping.{DropsClosed, DropsIf, DropsLost};
ghost use Rattle.sn_live_world.specs.Turned.{DropsTo, Turns};
ghost use Rattle.sn_model.specs.Outcomes.{is_opening};
ghost use Rattle.sn_model.specs.Settling.{dropped, is_abandoned};
ghost use Rattle.sn_model.specs.Steps.{with_caller};
ghost use Rattle.sn_model.specs.Tree.{Tree};

use crate::LiveWorld;
use sn_caller::turn;
use sn_model::Caller;
use std::alloc::AllocError;

impl LiveWorld {
    ghost use Rattle.sn_live_world.specs.World.{Alike, HasDrops, HasSessions, IsOver, descriptors_of, kept_of, kept_since_of, nameless_of, point_of, room_of, world_over};

    /// Makes room for one more open file, and for its drop.
    fn prepare_file(&mut self) -> Result<(), AllocError>
        ensures alike { Alike self.old self.new }
        ensures room { OnOk result (0 < room_of self.new) }
        ensures drops { OnOk result (HasDrops self.new (live_in (descriptors_of self.old) + 1)) }
        ensures keeps { (n : ℕ) → HasDrops self.old n → HasDrops self.new n }
    {
        let Some(drops) = self.open_files().checked_add(1) else {
            return Err(AllocError);
        };
        self.sessions.reserve()?;
        self.live.reserve_drops(drops)
    }

    /// Makes room for the file that a caller opens, if it opens one, and for its drop. Where memory is refused nothing
    /// that is shown changes, and no room for drops is lost.
    ///
    /// Proved, also of `prepare_change`: All that a call needs is read and grown before it changes anything: room for the
    /// file that it opens and for its drop, and what its change asks for, besides room for the drops of all open files; what
    /// is shown is unchanged, whatever the answer.
    pub fn prepare_caller(&mut self, caller: &Caller) -> Result<(), AllocError>
        requires { HasDrops self.old (live_in (descriptors_of self.old)) }
        ensures alike { Alike self.old self.new }
        ensures room { OnOk result (HasRoom caller.now (room_of self.new)) }
        ensures drops { OnOk result (HasDrops self.new (live_in (descriptors_of self.old) + (if is_opening caller.now then 1 else 0))) }
        ensures opening { OnErr result (is_opening caller.now ≡ true) }
        ensures keeps { HasDrops self.new (live_in (descriptors_of self.old)) }
    {
        match caller {
            Caller::Opens { .. } | Caller::OpensNew { .. } => self.prepare_file(),
            _ => Ok(()),
        }
    }

    /// Whether a number is that of a live file that has no name and nobody has open.
    fn is_abandoned(&self, number: u16) -> bool
        ensures { (below : Tree) → IsOver self.now below → result ≡ is_abandoned (world_over self.now below) number }
    {
        self.live.is_nameless(number) && !self.sessions.is_held(number)
    }

    /// Removes a live file, if it has no name and nobody has it open. Its number is kept back where it went with
    /// its last descriptor.
    fn drop_if(&mut self, number: u16, by_close: bool)
        requires { HasDrops self.old 1 }
        ensures drops { (below : Tree) → IsOver self.old below → DropsIf number by_close self.old self.new below }
        ensures sessions { HasSessions self.old self.new }
        ensures point { point_of self.new ≡ point_of self.old }
        ensures counted { nameless_of self.new ≤ nameless_of self.old }
        ensures room { (n : ℕ) → HasDrops self.old (n + 1) → HasDrops self.new n }
    {
        if self.is_abandoned(number) {
            self.live.drop_file(number, by_close);
        }
    }

    /// Removes each of these files that lost its last descriptor, if it has no name.
    fn drop_each_closed(&mut self, numbers: &[u16])
        requires { HasDrops self.old (length numbers.now) }
        ensures drops { (below : Tree) → IsOver self.old below → DropsClosed numbers.now self.old self.new below }
        ensures sessions { HasSessions self.old self.new }
        ensures point { point_of self.new ≡ point_of self.old }
        ensures counted { nameless_of self.new ≤ nameless_of self.old }
        ensures room { (n : ℕ) → HasDrops self.old (n + length numbers.now) → HasDrops self.new n }
    {
        for number in numbers {
            self.drop_if(*number, true);
        }
    }

    /// Removes a file that lost its last name, if one did and nobody has it open.
    fn drop_lost(&mut self, lost: Option<u16>)
        requires { HasDrops self.old (if is_some lost then 1 else 0) }
        ensures drops { (below : Tree) → IsOver self.old below → DropsLost lost self.old self.new below }
        ensures sessions { HasSessions self.old self.new }
        ensures point { point_of self.new ≡ point_of self.old }
        ensures counted { nameless_of self.new ≤ nameless_of self.old }
        ensures room { (n : ℕ) → HasDrops self.old (n + (if is_some lost then 1 else 0)) → HasDrops self.new n }
    {
        if let Some(number) = lost {
            self.drop_if(number, false);
        }
    }

    /// Sets what becomes of a caller's session and its descriptors. A live file without a name goes where nobody
    /// has it open any more: one that lost its last descriptor, or its last name by the change that was made. Only those
    /// are looked at. The numbers of the former are kept back. It takes no memory.
    ///
    /// Proved: A caller becomes what the model makes of it, without memory: each live file that nobody has open and that has no name
    /// goes, and no other, with its drop merged, its number kept back where it went with its last descriptor, and
    /// room left for the drops of all open files.
    pub fn set_caller(&mut self, session: u32, caller: Caller, lost: Option<u16>)
        requires room { HasRoom caller (room_of self.old) }
        requires drops { HasDrops self.old (live_in (descriptors_of self.old) + (if is_opening caller then 1 else 0) + (if is_some lost then 1 else 0)) }
        ensures over { (below : Tree) → Turns self.old below session caller lost → IsOver self.new below }
        ensures world { (below : Tree) → Turns self.old below session caller lost → world_over self.new below ≡ dropped (with_caller (world_over self.old below) session caller) }
        ensures kept { (below : Tree) → Turns self.old below session caller lost → (n : ℕ) → kept_of self.new n ≡ (has_closed (world_over self.old below) (world_over self.new below) n || kept_of self.old n) }
        ensures since { (below : Tree) → Turns self.old below session caller lost → (n : ℕ) → kept_since_of self.new n ≡ (has_closed (world_over self.old below) (world_over self.new below) n || kept_since_of self.old n) }
        ensures dropped { (below : Tree) → Turns self.old below session caller lost → DropsTo self.old self.new below }
        ensures point { point_of self.new ≡ point_of self.old }
        ensures fewer { nameless_of self.new ≤ nameless_of self.old }
        ensures left { HasDrops self.new (live_in (descriptors_of self.new)) }
    {
        let released = turn(&mut self.sessions, session, caller);
        self.drop_each_closed(released.as_slice());
        self.drop_lost(lost);
    }
}
