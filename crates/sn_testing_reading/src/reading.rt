//! All that a half stands for.

use crate::half::{Ending, Records};
use crate::obstacles::Obstacle;
use crate::payload::{Change, ChangeKind, Misspelling};
use crate::tree::Tree;
use std::alloc::{AllocError, Global};

/// A half has room for fewer records.
const MOST: usize = 128;

/// What replay of a half comes to.
#[derive(Clone, Copy, PartialEq, Eq)]
pub enum Outcome {
    /// No further record stands there, or one that is misspelt.
    Ended(Ending),
    /// A record can't be applied to what those before it have made.
    Obstructed(ChangeKind, Obstacle),
}

impl Outcome {
    /// Whether the half is a tree, and not damaged.
    pub fn is_tree(&self) -> bool {
        match self {
            Outcome::Ended(ending) => {
                !matches!(ending, Ending::LaterEpoch | Ending::Misspelt(_))
            }
            Outcome::Obstructed(..) => false,
        }
    }
}

impl From<Ending> for Outcome {
    fn from(ending: Ending) -> Outcome {
        Outcome::Ended(ending)
    }
}

impl From<Misspelling> for Outcome {
    fn from(misspelling: Misspelling) -> Outcome {
        Outcome::Ended(Ending::Misspelt(misspelling))
    }
}

/// A half that was read.
#[derive(Drop)]
pub struct Reading<'a> {
    /// What the records up to the end or the damage make.
    pub tree: Tree<'a>,
    /// Their changes, in their order.
    pub made: Vec<ChangeKind>,
    pub outcome: Outcome,
    /// The place of the gate at which it ends.
    pub place: usize,
}

/// The next change, where a record is there and can be applied.
fn next<'a>(records: &mut Records<'a>, tree: &Tree<'a>) -> Result<Change<'a>, Outcome> {
    let payload = records.read_next()?;
    let change = Change::read(payload)?;
    match tree.test(&change) {
        Ok(()) => Ok(change),
        Err(obstacle) => Err(Outcome::Obstructed(change.kind(), obstacle)),
    }
}

/// Reads the records of an epoch in the 256 sectors of a half.
pub fn read_half<'a>(alloc: Global, half: &'a [u8], epoch: u64) -> Result<Reading<'a>, AllocError> {
    let mut tree = Tree::new(alloc)?;
    let mut made = Vec::new(alloc);
    let mut records = Records::new(half, epoch);
    let mut place = 0;
    let mut outcome = Outcome::Ended(Ending::Last);
    for _ in 0..MOST {
        place = records.place();
        match next(&mut records, &tree) {
            Ok(change) => {
                tree.apply(&change)?;
                made.push(change.kind())?;
            }
            Err(found) => {
                outcome = found;
                break;
            }
        }
    }
    Ok(Reading {
        tree,
        made,
        outcome,
        place,
    })
}
