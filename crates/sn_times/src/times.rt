//! The times of all objects of a mount.
ghost use Rattle.std.specs.Prelude.{◌≡◌, ◌≢◌, None, Some, OnOk, OnErr, map as each};
ghost use Rattle.std.specs.FinMap as map;
ghost use Rattle.std.specs.Option.{option_copied};
ghost use Rattle.std.specs.Vec.{vec_items};
ghost use Rattle.sn_times.specs.Dates as dates;
ghost use Rattle.sn_times.specs.Dates.{IsExact, IsMarked, KeepsNone, TakesMemory, all_forgotten, frozen, frozen_as, met, moved, named_tree, own_at, put, stamps_at, thawed, with_name, with_tree, without};

use crate::stamps::{Mark, Stamps};
use crate::tree::TreeTimes;
use sn_fuse::Time;
use sn_maps::NameMap;
use std::alloc::{AllocError, Global};
use std::collections::BTreeMap;
use std::collections::btree_map::{Iter, Keys};
use std::marker::Model;

/// How many numbers a tree has.
const NUMBERS: u64 = 65_536;

/// The home of the live tree.
const LIVE: u64 = 0;

/// The first home that no number has. From it on are the times that wait for the snapshots of an earlier mount.
pub const FIRST_WAITING: u64 = 1 << 48;

/// The times of the objects of a mount, by their numbers: 65,536 times the home of an object's tree, and its number there.
#[derive(Drop)]
pub struct Times {
    base: Time,
    trees: BTreeMap<u64, TreeTimes>,
    homes: NameMap<u64>,
    alloc: Global,
}

impl Model for Times {
    ghost use Rattle.std.specs.Coded.{codes};
    ghost use Rattle.std.specs.FinMap as map;
    ghost use Rattle.std.specs.Ordering.{nat_cmp};
    ghost use Rattle.sn_maps.specs.Maps.{seen_by};
    ghost use Rattle.sn_times.specs.Dates.{Dates, Tree};

    ghost Value = { Dates };

    ghost coded = { Prim.hlevel (codes, map.code) };

    ghost view = { λ t. record { base = t.base; trees = seen_by nat_cmp (λ (tree : Tree). tree) t.trees.entries; homes = t.homes } };
}

impl Times {
    /// No object has a time of its own: all have this one. It takes no memory.
    pub fn new(alloc: Global, base: Time) -> Times
        ensures { result ≡ all_forgotten base }
    {
        Times {
            base,
            trees: BTreeMap::new(alloc),
            homes: NameMap::new(alloc),
            alloc,
        }
    }

    /// The time of the objects of each tree of which nothing is kept.
    pub fn base(&self) -> Time
        ensures { result ≡ self.now.base }
    {
        self.base
    }

    /// The homes of which times are kept in order, each with these.
    pub fn trees(&self) -> Iter<'_, u64, TreeTimes>
        ensures { result ≡ map.entries self.now.trees }
    {
        self.trees.iter()
    }

    /// What is kept of a home.
    pub fn tree(&self, home: u64) -> Option<&TreeTimes>
        ensures { option_copied result ≡ map.get self.now.trees home }
    {
        self.trees.get(&home)
    }

    /// Gives a home these times, in place of those that it has. Where memory for that is refused, nothing changes.
    pub fn put_tree(&mut self, home: u64, tree: TreeTimes) -> Result<(), AllocError>
        ensures ok { OnOk result (self.new ≡ with_tree self.old home (Some tree)) }
        ensures err { OnErr result (self.new ≡ self.old) }
    {
        self.trees.insert(home, tree)?;
        Ok(())
    }

    /// The names of snapshots of which times are kept, in the order of their bytes.
    pub fn names(&self) -> Keys<'_, Vec<u8>, u64>
        ensures { each vec_items result ≡ map.keys self.now.homes }
    {
        self.homes.names()
    }

    /// What is kept of the snapshot with this name: `None` also where all its objects have the time of those of which nothing is kept.
    pub fn named(&self, name: &[u8]) -> Option<&TreeTimes>
        ensures { option_copied result ≡ named_tree self.now name.now }
    {
        let home = self.homes.get(name)?;
        self.tree(home)
    }

    /// Says that the snapshot with this name has this home. Where memory for that is refused, nothing changes.
    pub fn put_name(&mut self, home: u64, name: &[u8]) -> Result<(), AllocError>
        ensures ok { OnOk result (self.new ≡ with_name self.old name.now home) }
        ensures err { OnErr result (self.new ≡ self.old) }
    {
        let name = Vec::from_slice(self.alloc, name)?;
        self.homes.insert(name, home)?;
        Ok(())
    }

    /// The times of the object with this number.
    pub fn stamps(&self, number: u64) -> Stamps
        ensures { result ≡ stamps_at self.now number }
    {
        match self.trees.get(&(number / NUMBERS)) {
            Some(tree) => tree.stamps((number % NUMBERS) as u16),
            None => Stamps::at(self.base),
        }
    }

    // Gives an object times of its own.
    fn put(&mut self, number: u64, stamps: Stamps) -> Result<(), AllocError>
        ensures ok { OnOk result (self.new ≡ put self.old number stamps) }
        ensures err { OnErr result (self.new ≡ self.old) }
        ensures absent { OnErr result (own_at self.old number ≡ None) }
    {
        let home = number / NUMBERS;
        let place = (number % NUMBERS) as u16;
        match self.trees.get_mut(&home) {
            Some(tree) => tree.insert(place, stamps),
            None => {
                let mut tree = TreeTimes::new(self.alloc, self.base);
                tree.insert(place, stamps)?;
                self.trees.insert(home, tree)?;
                Ok(())
            }
        }
    }

    // The objects of a home get the times of the live ones.
    fn freeze(&mut self, home: u64) -> Result<(), AllocError>
        ensures { OnOk result (self.new ≡ frozen self.old home) }
    {
        match self.trees.get(&LIVE) {
            Some(live) => {
                let copy = live.copy()?;
                self.trees.insert(home, copy)?;
            }
            None => {
                self.trees.remove(&home);
            }
        }
        Ok(())
    }

    // Nothing is kept of a home any longer.
    fn thaw(&mut self, home: u64)
        ensures { self.new ≡ thawed self.old home }
    {
        if home != LIVE {
            self.trees.remove(&home);
        }
    }

    // No times are kept any longer of the snapshot with a name.
    fn thaw_named(&mut self, name: &[u8])
        ensures { self.new ≡ without self.old name.now }
    {
        if let Some(home) = self.homes.get(name) {
            self.thaw(home);
        }
    }

    // The objects of a home, which is that of the snapshot with a name from then on, get the times of the live ones.
    fn freeze_as(&mut self, home: u64, name: &[u8]) -> Result<(), AllocError>
        ensures { OnOk result (self.new ≡ frozen_as self.old home name.now) }
    {
        self.thaw_named(name);
        self.freeze(home)?;
        self.put_name(home, name)
    }

    // The snapshot with a name is gone.
    fn drop_name(&mut self, name: &[u8])
        ensures { self.new ≡ dates.gone self.old name.now }
    {
        self.thaw_named(name);
        self.homes.remove(name);
    }

    // The times of one home are those of another.
    fn move_tree(&mut self, home: u64, other: u64) -> Result<(), AllocError>
        ensures { OnOk result (self.new ≡ moved self.old home other) }
    {
        match self.trees.remove(&home) {
            Some(tree) => {
                self.trees.insert(other, tree)?;
            }
            None => {
                self.trees.remove(&other);
            }
        }
        Ok(())
    }

    // Times that wait are those of a snapshot's home.
    fn take(&mut self, kept: Option<u64>, home: u64) -> Result<(), AllocError>
        ensures { OnOk result (self.new ≡ dates.taken_if self.old kept home) }
    {
        match kept {
            Some(kept) if kept >= FIRST_WAITING => self.move_tree(kept, home),
            _ => Ok(()),
        }
    }

    // The snapshot with a name has a home.
    fn meet(&mut self, home: u64, name: &[u8]) -> Result<(), AllocError>
        ensures ok { OnOk result (self.new ≡ met self.old home name.now) }
        ensures unmet { OnErr result (map.get self.old.homes name.now ≢ Some home) }
    {
        let kept = self.homes.get(name);
        if kept == Some(home) {
            return Ok(());
        }
        self.put_name(home, name)?;
        self.take(kept, home)
    }

    /// Every object has this time from then on: for a change of which isn't known what it was of.
    pub fn forget(&mut self, now: Time)
        ensures { self.new ≡ all_forgotten now }
    {
        self.base = now;
        self.trees.clear();
        self.homes = NameMap::new(self.alloc);
    }

    // Marks times for update, and leaves them where memory is refused.
    fn try_mark(&mut self, now: Time, mark: Mark<'_>) -> Result<(), AllocError>
        ensures exact { OnOk result (IsExact mark.entry now self.old self.new) }
        ensures gone { KeepsNone mark.entry self.old self.new }
        ensures err { OnErr result (TakesMemory mark.entry self.old) }
    {
        match mark {
            Mark::Made { number } => self.put(number, Stamps::at(now)),
            Mark::Modified { number } => {
                let stamps = self.stamps(number).modified(now);
                self.put(number, stamps)
            }
            Mark::Changed { number } => {
                let stamps = self.stamps(number).changed(now);
                self.put(number, stamps)
            }
            Mark::Dated {
                number,
                accessed,
                modified,
            } => {
                let stamps = self.stamps(number).dated(now, accessed, modified);
                self.put(number, stamps)
            }
            Mark::Frozen { home, name } => self.freeze_as(home, name.as_bytes()),
            Mark::Thawed { name } => {
                self.drop_name(name.as_bytes());
                Ok(())
            }
            Mark::Met { home, name } => self.meet(home, name.as_bytes()),
        }
    }

    /// Marks times for update (POSIX.1-2017, 4.9 "File Times Update"). It can't fail: where memory is refused, every object has the time `now` from then
    /// on, so that no time is older than its content. An object that has times of its own needs no memory for more marks.
    ///
    /// Proved, also of `Times::stamps`: A mark changes the times that POSIX says and no others, also in snapshots, which keep those of their moment; or,
    /// where it needed memory that was refused, every object has the time of the mark.
    ///
    /// Proved: A snapshot that is met takes the times that wait under its name and no others, and none are kept under the name of one that is gone, or was made anew.
    pub fn mark(&mut self, now: Time, mark: Mark<'_>)
        ensures marked { IsMarked mark.entry now self.old self.new }
        ensures gone { KeepsNone mark.entry self.old self.new }
    {
        if self.try_mark(now, mark).is_err() {
            self.forget(now);
        }
    }
}
