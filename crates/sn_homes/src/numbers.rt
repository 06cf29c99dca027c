//! Numbers of objects, and objects of numbers.
ghost use Rattle.std.specs.Prelude.{◌≡◌, ◌<◌, IfOk, OnErr};
ghost use Rattle.sn_homes.specs.Homes.{home_at, home_of, met_with, number_of, object_at};
ghost use Rattle.sn_walk.specs.declared.object.Object.TheVariants.{Node};

use crate::homes::Homes;
use sn_walk::{Home, Object};
use std::alloc::AllocError;

/// How many numbers a tree has.
const NUMBERS: u64 = 65_536;

/// The directory of snapshots: number 1 of home 1.
const SNAPSHOTS: u64 = 65_537;

/// The first home of a snapshot.
const FIRST_FROZEN: u64 = 2;

impl Homes {
    // The home of a tree.
    fn home(&mut self, home: &Home, number: u16) -> Result<u64, AllocError>
        ensures home { IfOk result (λ it. it ≡ home_of self.new home.now) }
        ensures few { IfOk result (λ it. it < 4294967298) }
        ensures met { IfOk result (λ it. self.new ≡ met_with self.old (Node home.now number)) }
        ensures err { OnErr result (self.new ≡ self.old) }
    {
        match home {
            Home::Live => Ok(0),
            Home::Frozen(name) => {
                let place = self.meet(name)?;
                Ok(place as u64 + FIRST_FROZEN)
            }
        }
    }

    /// The number of an object. A snapshot that wasn't met before gets a home. Where memory for that is refused, nothing changes.
    ///
    /// Proved, also of `Homes::object`: An object has one number, by which it is found again until its snapshot is deleted.
    pub fn number(&mut self, object: &Object) -> Result<u64, AllocError>
        ensures number { IfOk result (λ number. number ≡ number_of self.new object.now) }
        ensures met { IfOk result (λ number. self.new ≡ met_with self.old object.now) }
        ensures err { OnErr result (self.new ≡ self.old) }
    {
        match object {
            Object::Node { home, number } => {
                let home = self.home(home, *number)?;
                Ok(home * NUMBERS + u64::from(*number))
            }
            Object::Snapshots => Ok(SNAPSHOTS),
        }
    }

    // The tree with this home.
    fn tree(&self, home: u64) -> Option<Home>
        ensures { result ≡ home_at self.now home }
    {
        match home {
            0 => Some(Home::Live),
            1 => None,
            _ => {
                let name = self.at(home - FIRST_FROZEN)?;
                Some(Home::Frozen(name))
            }
        }
    }

    /// The object with a number. `None` where no object that was met has it, or its snapshot was deleted since.
    pub fn object(&self, number: u64) -> Option<Object>
        ensures { result ≡ object_at self.now number }
    {
        if number == SNAPSHOTS {
            return Some(Object::Snapshots);
        }
        let home = self.tree(number / NUMBERS)?;
        Some(Object::Node {
            home,
            number: (number % NUMBERS) as u16,
        })
    }
}
