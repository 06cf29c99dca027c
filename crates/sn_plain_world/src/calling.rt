//! What becomes of whoever called, and of files that nobody has and no name stands for.
ghost use Rattle.std.specs.Prelude.{◌≡◌, ◌+◌, ◌<◌, ◌≤◌, ◌==◌, ◌&&◌, ◌||◌, ℕ, true, false, All, Contains, OnOk, OnErr, is_some, length, if◌then◌else◌};
ghost use Rattle.arrayvec.specs.ArrayVec.{array_vec_len};
ghost use Rattle.sn_changed.specs.Dropped.{TellsGone};
ghost use Rattle.sn_desc.specs.InUse.{live_in};
ghost use Rattle.sn_limits.specs.Versions.{limits_written};
ghost use Rattle.sn_model.specs.NameTree.{IsTree};
ghost use Rattle.sn_model.specs.Outcomes.{is_opening};
ghost use Rattle.sn_model.specs.Settling.{OnlyLost, dropped, dropped_if, is_abandoned, is_held};
ghost use Rattle.sn_model.specs.Steps.{with_caller};
ghost use Rattle.sn_caller.specs.Called.{AreNumbers, CanTurn, HasRoom, TellsReleased, WereHeld};
ghost use Rattle.sn_caller.specs.Numbering.{has_closed, has_gone};
ghost use Rattle.sn_caller.specs.Told.{dropped_lost, told_if, told_lost};

use crate::PlainWorld;
use sn_caller::turn;
use sn_changed::{DroppedFile, DroppedFiles};
use sn_desc::Released;
use sn_model::Caller;
use std::alloc::AllocError;

impl PlainWorld {
    ghost use Rattle.sn_plain_world.specs.Plain.{kept_of, kept_since_of, room_of, world_of};

    /// Makes room for the file that a caller opens, if it opens one. Where memory is refused nothing
    /// changes.
    ///
    /// Proved, also of `set_caller` and `settle`: What becomes of the caller, and of the files that it alone held, takes no
    /// memory once room was made.
    pub fn prepare(&mut self, caller: &Caller) -> Result<(), AllocError>
        ensures world { world_of self.new ≡ world_of self.old }
        ensures kept { kept_of self.new ≡ kept_of self.old }
        ensures since { kept_since_of self.new ≡ kept_since_of self.old }
        ensures room { OnOk result (HasRoom caller.now (room_of self.new)) }
        ensures opening { OnErr result (is_opening caller.now ≡ true) }
    {
        match caller {
            Caller::Opens { .. } | Caller::OpensNew { .. } => self.sessions.reserve(),
            _ => Ok(()),
        }
    }

    /// Sets what becomes of a caller's session and its descriptors, and returns the live files that no
    /// descriptor has any more.
    fn turn(&mut self, session: u32, caller: Caller) -> Released
        requires opens { CanTurn (world_of self.old).descriptors (room_of self.old) session caller }
        ensures world { world_of self.new ≡ with_caller (world_of self.old) session caller }
        ensures kept { kept_of self.new ≡ kept_of self.old }
        ensures since { kept_since_of self.new ≡ kept_since_of self.old }
        ensures released { TellsReleased (world_of self.old) (world_of self.new) result.items }
        ensures held { WereHeld (world_of self.old) result.items }
        ensures few { array_vec_len result + live_in (world_of self.new).descriptors ≤ live_in (world_of self.old).descriptors + (if is_opening caller then 1 else 0) }
    {
        turn(&mut self.sessions, session, caller)
    }

    /// Whether a number is that of a live file that no name stands for and nobody has open.
    fn is_abandoned(&self, number: u16) -> bool
        ensures { result ≡ is_abandoned (world_of self.now) number }
    {
        self.tree.tree().is_nameless(number) && !self.sessions.is_held(number)
    }

    /// Removes a live file that lost its last descriptor, if no name stands for it, and reports it after the
    /// others: its number is kept back.
    fn drop_if_closed(&mut self, number: u16, dropped: &mut DroppedFiles)
        requires numbers { AreNumbers (world_of self.old) }
        requires room { array_vec_len dropped.old < 65 }
        ensures world { world_of self.new ≡ dropped_if (world_of self.old) number }
        ensures kept { (n : ℕ) → kept_of self.new n ≡ ((is_abandoned (world_of self.old) number && n == number) || kept_of self.old n) }
        ensures since { (n : ℕ) → kept_since_of self.new n ≡ ((is_abandoned (world_of self.old) number && n == number) || kept_since_of self.old n) }
        ensures told { dropped.new.items ≡ told_if (world_of self.old) number true dropped.old.items }
    {
        if self.is_abandoned(number) {
            self.tree.drop_closed(number);
            dropped.push(DroppedFile {
                number,
                by_close: true,
            });
        }
    }

    /// The same for each of these.
    fn drop_each_closed(&mut self, numbers: &[u16]) -> DroppedFiles
        requires numbers { AreNumbers (world_of self.old) }
        requires few { length numbers.now ≤ 64 }
        ensures world { dropped (world_of self.new) ≡ dropped (world_of self.old) }
        ensures left { (number : ℕ) → is_abandoned (world_of self.new) number ≡ true → (is_abandoned (world_of self.old) number ≡ true) × (Contains numbers.now number → ⊥) }
        ensures gone { (number : ℕ) → has_gone (world_of self.old) (world_of self.new) number ≡ true → Contains numbers.now number }
        ensures kept { (number : ℕ) → kept_of self.new number ≡ (has_gone (world_of self.old) (world_of self.new) number || kept_of self.old number) }
        ensures since { (number : ℕ) → kept_since_of self.new number ≡ (has_gone (world_of self.old) (world_of self.new) number || kept_since_of self.old number) }
        ensures told { TellsGone (world_of self.old).live (world_of self.new).live result.items }
        ensures closed { All (λ file. file.by_close ≡ true) result.items }
        ensures few { array_vec_len result ≤ length numbers.now }
    {
        let mut dropped = DroppedFiles::new();
        for number in numbers {
            self.drop_if_closed(*number, &mut dropped);
        }
        dropped
    }

    /// Removes a live file that lost a name, if no other stands for it and nobody has it open, and reports it after
    /// the others.
    fn drop_if_lost(&mut self, number: u16, dropped: &mut DroppedFiles)
        requires numbers { AreNumbers (world_of self.old) }
        requires room { array_vec_len dropped.old < 65 }
        ensures world { world_of self.new ≡ dropped_if (world_of self.old) number }
        ensures kept { (n : ℕ) → kept_of self.new n ≡ kept_of self.old n }
        ensures since { (n : ℕ) → kept_since_of self.new n ≡ kept_since_of self.old n }
        ensures told { dropped.new.items ≡ told_if (world_of self.old) number false dropped.old.items }
    {
        if self.is_abandoned(number) {
            self.tree.drop_file(number);
            dropped.push(DroppedFile {
                number,
                by_close: false,
            });
        }
    }

    /// The same where a file lost a name.
    fn drop_lost(&mut self, lost: Option<u16>, dropped: &mut DroppedFiles)
        requires numbers { AreNumbers (world_of self.old) }
        requires room { array_vec_len dropped.old < 65 }
        ensures world { world_of self.new ≡ dropped_lost (world_of self.old) lost }
        ensures kept { (n : ℕ) → kept_of self.new n ≡ kept_of self.old n }
        ensures since { (n : ℕ) → kept_since_of self.new n ≡ kept_since_of self.old n }
        ensures told { dropped.new.items ≡ told_lost (world_of self.old) lost dropped.old.items }
    {
        if let Some(number) = lost {
            self.drop_if_lost(number, dropped);
        }
    }

    /// Sets what becomes of a caller's session and its descriptors. A live file that no name stands for
    /// goes where nobody has it open any more: one that lost its last descriptor, or its name by the
    /// change that was made. Only those are looked at. The numbers of the former are kept back. It returns
    /// the files that went, each once, and whether with the last descriptor.
    ///
    /// Proved: A file without a name goes exactly when nobody has it open any more; those that go are returned, each once
    /// and no other, and whether with the last descriptor, and with the descriptors of live files that are left they are no
    /// more than before, one that is opened, and one for a name that was lost.
    pub fn set_caller(&mut self, session: u32, caller: Caller, lost: Option<u16>) -> DroppedFiles
        requires whole { IsTree limits_written (world_of self.old).live }
        requires opens { CanTurn (world_of self.old).descriptors (room_of self.old) session caller }
        requires lost { OnlyLost (world_of self.old) lost }
        ensures world { world_of self.new ≡ dropped (with_caller (world_of self.old) session caller) }
        ensures kept { (number : ℕ) → kept_of self.new number ≡ (has_closed (world_of self.old) (world_of self.new) number || kept_of self.old number) }
        ensures since { (number : ℕ) → kept_since_of self.new number ≡ (has_closed (world_of self.old) (world_of self.new) number || kept_since_of self.old number) }
        ensures told { TellsGone (world_of self.old).live (world_of self.new).live result.items }
        ensures closed { All (λ file. file.by_close ≡ is_held (world_of self.old) file.number) result.items }
        ensures few { array_vec_len result + live_in (world_of self.new).descriptors
            ≤ live_in (world_of self.old).descriptors + (if is_opening caller then 1 else 0) + (if is_some lost then 1 else 0) }
    {
        let released = self.turn(session, caller);
        let mut dropped = self.drop_each_closed(released.as_slice());
        self.drop_lost(lost, &mut dropped);
        dropped
    }
}
