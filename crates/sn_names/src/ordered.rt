//! Many numbers in order, and a few that came since.
ghost use Rattle.std.specs.Prelude.{[], ◌∷◌, ◌++◌, ◌≡◌, OnOk};
ghost use Rattle.std.specs.List.Sorted.{IsNonDecreasing};

use crate::search::{earlier, merge, next_among, next_in_order};
use std::alloc::{AllocError, Global};

/// So many numbers at most are out of order.
const MOST_RECENT: usize = 1024;

/// Numbers. Most of them are in order; those that came since are few.
#[derive(Drop)]
pub(crate) struct OrderedNumbers {
    settled: Vec<u64>,
    recent: Vec<u64>,
    ghost rises: { IsNonDecreasing settled.items },
}

impl OrderedNumbers {
    ghost use Rattle.sn_names.specs.Ordered.{numbers_of};
    ghost use Rattle.sn_names.specs.Search.{IsNext, HasAll};

    // No numbers.
    pub(crate) fn new(alloc: Global) -> Self
        ensures { numbers_of result ≡ [] }
    {
        OrderedNumbers {
            settled: Vec::new(alloc),
            recent: Vec::new(alloc),
        }
    }

    // How many there are.
    pub(crate) fn len(&self) -> usize {
        self.settled.len().saturating_add(self.recent.len())
    }

    // Puts a number to the others. Where memory is refused, some may be lost.
    pub(crate) fn add(&mut self, number: u64) -> Result<(), AllocError>
        ensures { OnOk result (HasAll (number ∷ numbers_of self.old) (numbers_of self.new)) }
    {
        self.recent.push(number)?;
        if self.recent.len() >= MOST_RECENT {
            self.settle()?;
        }
        Ok(())
    }

    // Puts those that came since into their places. Where memory is refused, some may be lost.
    pub(crate) fn settle(&mut self) -> Result<(), AllocError>
        ensures { OnOk result (HasAll (numbers_of self.old) (numbers_of self.new)) }
    {
        self.recent.sort_unstable();
        merge(&mut self.settled, &self.recent)?;
        self.recent.clear();
        Ok(())
    }

    // Puts numbers to the others, which are best in order. Where memory is refused, some may be lost.
    pub(crate) fn add_all(&mut self, numbers: &[u64]) -> Result<(), AllocError>
        ensures { OnOk result (HasAll (numbers_of self.old ++ numbers.now) (numbers_of self.new)) }
    {
        merge(&mut self.settled, numbers)?;
        Ok(())
    }

    // Those that are in order, and the others.
    pub(crate) fn parts(&self) -> (&[u64], &[u64])
        ensures { result.0.now ++ result.1.now ≡ numbers_of self.now }
    {
        (&self.settled, &self.recent)
    }

    // The least number from one on.
    pub(crate) fn next(&self, from: u64) -> Option<u64>
        ensures { IsNext from (numbers_of self.now) result }
    {
        let settled = next_in_order(&self.settled, from);
        let recent = next_among(&self.recent, from);
        earlier(settled, recent)
    }
}
