//! The times of one tree's objects.
ghost use Rattle.std.specs.Prelude.{◌≡◌, ◌↔◌, None, IsTrue, IfOk, OnOk, OnErr};
ghost use Rattle.std.specs.FinMap as map;
ghost use Rattle.sn_times.specs.Dates.{bare, put_in, stamps_in};

use crate::stamps::Stamps;
use sn_fuse::Time;
use std::alloc::{AllocError, Global};
use std::collections::BTreeMap;
use std::collections::btree_map::Iter;
use std::marker::Model;

/// The times of a tree's objects, by their numbers in it: of those that have times of their own, and of all others one time, the base.
#[derive(Drop)]
pub struct TreeTimes {
    base: Time,
    by_number: BTreeMap<u16, Stamps>,
}

impl Model for TreeTimes {
    ghost use Rattle.std.specs.Coded.{codes};
    ghost use Rattle.std.specs.FinMap as map;
    ghost use Rattle.std.specs.Ordering.{nat_cmp};
    ghost use Rattle.sn_maps.specs.Maps.{seen_by};
    ghost use Rattle.sn_times.specs.Dates.{Tree};
    ghost use Rattle.sn_times.specs.declared.stamps.Stamps.{Stamps};

    ghost Value = { Tree };

    ghost coded = { Prim.hlevel (codes, map.code) };

    ghost view = { λ t. record { base = t.base; own = seen_by nat_cmp (λ (stamps : Stamps). stamps) t.by_number.entries } };
}

impl TreeTimes {
    /// No object has a time of its own: all have this one. It takes no memory.
    pub fn new(alloc: Global, base: Time) -> TreeTimes
        ensures { result ≡ bare base }
    {
        TreeTimes {
            base,
            by_number: BTreeMap::new(alloc),
        }
    }

    /// The time of each object that has none of its own.
    pub fn base(&self) -> Time
        ensures { result ≡ self.now.base }
    {
        self.base
    }

    // The times that an object has of its own.
    fn own(&self, number: u16) -> Option<Stamps>
        ensures { result ≡ map.get self.now.own number }
    {
        self.by_number.get(&number).copied()
    }

    /// The times of an object.
    pub fn stamps(&self, number: u16) -> Stamps
        ensures { result ≡ stamps_in self.now number }
    {
        match self.own(number) {
            Some(stamps) => stamps,
            None => Stamps::at(self.base),
        }
    }

    /// Gives an object times of its own. Where memory for that is refused, nothing changes; none is needed where it had some.
    pub fn insert(&mut self, number: u16, stamps: Stamps) -> Result<(), AllocError>
        ensures ok { OnOk result (self.new ≡ put_in self.old number stamps) }
        ensures err { OnErr result (self.new ≡ self.old) }
        ensures absent { OnErr result (map.get self.old.own number ≡ None) }
    {
        self.by_number.insert(number, stamps)?;
        Ok(())
    }

    /// How many objects have times of their own.
    pub fn len(&self) -> usize
        ensures { result ≡ map.len self.now.own }
    {
        self.by_number.len()
    }

    /// Whether no object has times of its own.
    pub fn is_empty(&self) -> bool
        ensures { IsTrue result ↔ (map.len self.now.own ≡ 0) }
    {
        self.len() == 0
    }

    /// The numbers of these objects in order, each with its times.
    pub fn entries(&self) -> Iter<'_, u16, Stamps>
        ensures { result ≡ map.entries self.now.own }
    {
        self.by_number.iter()
    }

    // The same times once more.
    pub(crate) fn copy(&self) -> Result<TreeTimes, AllocError>
        ensures { IfOk result (λ tree. tree ≡ self.now) }
    {
        Ok(TreeTimes {
            base: self.base,
            by_number: self.by_number.clone()?,
        })
    }
}
