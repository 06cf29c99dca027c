//! The table of numbers.
ghost use Rattle.std.specs.Prelude.{◌≡◌, ℕ, ◌==◌, ◌||◌, ◌&&◌, not, false, is_some, IfOk};
ghost use Rattle.sn_model.specs.Changes.{put_node, take_node};
ghost use Rattle.sn_model.specs.Tree.{Node, Tree, least_unused};
ghost use Rattle.sn_number_table.specs.Numbers.{next_number};
ghost use Rattle.sn_number_table.specs.Marked.{ArePassed};

use crate::mark::Mark;
use crate::marks::Marks;
use crate::search::{after_loss, after_make, after_take, first_free, first_without_node};
use sn_limits::Limits;
use sn_walk::ROOT_NUMBER;
use std::alloc::{AllocError, Global};

/// Which numbers have a node, and which are kept back: those of files that went with their last descriptor. It
/// is taken once, and changed in place.
#[derive(Drop)]
pub struct NumberTable {
    marks: Marks,
    /// Each number from 2 on below this one has a node or is kept back.
    next: u32,
    ghost passed: { ArePassed marks next },
}

impl NumberTable {
    ghost use Rattle.sn_number_table.specs.Table.{TellsNumbers, is_taken_in, kept_of, since_of};

    /// No number has a node, and none is kept back. It takes all the memory that it will ever need.
    pub fn new(alloc: Global) -> Result<NumberTable, AllocError>
        ensures taken { IfOk result (λ t. (n : ℕ) → is_taken_in t n ≡ false) }
        ensures kept { IfOk result (λ t. (n : ℕ) → kept_of t n ≡ false) }
        ensures since { IfOk result (λ t. (n : ℕ) → since_of t n ≡ false) }
    {
        let marks = Marks::new(alloc)?;
        Ok(NumberTable {
            marks,
            next: u32::from(ROOT_NUMBER),
        })
    }

    /// A node has this number, as a pass over the nodes of a tree finds it. It isn't kept back.
    ///
    /// Proved, also of `new`: A number that is taken has a node, and no other one gets one by it; all memory is taken at
    /// first.
    pub fn take(&mut self, number: u16)
        ensures taken { (n : ℕ) → is_taken_in self.new n ≡ (n == number || is_taken_in self.old n) }
        ensures kept { (n : ℕ) → kept_of self.new n ≡ (not (n == number) && kept_of self.old n) }
        ensures since { (n : ℕ) → since_of self.new n ≡ (not (n == number) && since_of self.old n) }
    {
        self.marks.set(number, Mark::Taken);
        self.next = after_take(self.next, number);
    }

    /// The number that a new node gets: the least that no node has and that isn't kept back, or the least that
    /// no node has where there is no other. None where all numbers have a node.
    ///
    /// Proved: Of each tree whose numbers the table has, a new node gets the number that `sn_numbers` gives it: the least
    /// that no node has and that isn't kept back, or the least that no node has where there is no other.
    pub fn next_number(&self, limits: &Limits) -> Option<u16>
        ensures { (tree : Tree) → TellsNumbers tree self.now → result ≡ next_number limits.now tree (kept_of self.now) }
    {
        let free = first_free(&self.marks, self.next);
        if free <= u32::from(limits.largest_number) {
            return Some(free as u16);
        }
        let kept_back = first_without_node(&self.marks, u32::from(ROOT_NUMBER));
        if kept_back <= u32::from(limits.largest_number) {
            return Some(kept_back as u16);
        }
        None
    }

    /// Whether a number is left for a new node. One that is kept back is.
    ///
    /// Proved: Whether a number is left is as the model has it: one that is kept back is.
    pub fn has_free(&self, limits: &Limits) -> bool
        ensures { (tree : Tree) → TellsNumbers tree self.now → result ≡ is_some (least_unused limits.now tree) }
    {
        self.next_number(limits).is_some()
    }

    /// Whether a number is kept back: its file went with its last descriptor, since the durable root's point
    /// began.
    pub fn is_kept_back(&self, number: u16) -> bool
        ensures { result ≡ kept_of self.now number }
    {
        self.marks.is_kept(number)
    }

    /// Where a number that is kept back is given out, no other was left, and none is kept back any more.
    fn give_out(&mut self, number: u16)
        ensures taken { (n : ℕ) → is_taken_in self.new n ≡ is_taken_in self.old n }
        ensures kept { (n : ℕ) → kept_of self.new n ≡ (kept_of self.old n && not (kept_of self.old number)) }
        ensures since { (n : ℕ) → since_of self.new n ≡ (since_of self.old n && not (kept_of self.old number)) }
    {
        if self.is_kept_back(number) {
            self.release_all();
        }
    }

    /// A node has this number now. Where it was kept back, no number is any more.
    ///
    /// Proved, also of `lose` and `lose_closed`: The table still has the numbers of the tree where a node is made or removed.
    /// Proved, also of `lose`, `lose_closed` and `release_all`: Where a number that is kept back is given out, none is any
    /// more; the number of a file that a close or a logout dropped is kept back, that of any other node that is removed isn't.
    pub fn make(&mut self, number: u16)
        ensures tells { (tree : Tree) (node : Node) → TellsNumbers tree self.old → TellsNumbers (put_node tree number node) self.new }
        ensures kept { (n : ℕ) → kept_of self.new n ≡ (kept_of self.old n && not (kept_of self.old number)) }
        ensures since { (n : ℕ) → since_of self.new n ≡ (since_of self.old n && not (kept_of self.old number)) }
    {
        self.give_out(number);
        self.take(number);
        self.next = after_make(&self.marks, self.next, number);
    }

    /// The node of this number is removed, and the number can be given out at once.
    pub fn lose(&mut self, number: u16)
        ensures tells { (tree : Tree) → TellsNumbers tree self.old → TellsNumbers (take_node tree number) self.new }
        ensures kept { (n : ℕ) → kept_of self.new n ≡ kept_of self.old n }
        ensures since { (n : ℕ) → since_of self.new n ≡ since_of self.old n }
    {
        let mark = self.marks.get(number).without_node();
        self.marks.set(number, mark);
        self.next = after_loss(self.next, number);
    }

    /// The node of this number is removed, as a file is with its last descriptor: the number is kept back.
    pub fn lose_closed(&mut self, number: u16)
        ensures tells { (tree : Tree) → TellsNumbers tree self.old → TellsNumbers (take_node tree number) self.new }
        ensures kept { (n : ℕ) → kept_of self.new n ≡ (n == number || kept_of self.old n) }
        ensures since { (n : ℕ) → since_of self.new n ≡ (n == number || since_of self.old n) }
    {
        self.marks.set(number, Mark::KeptSince);
    }

    /// A consistency point begins: what is kept back so far has been so since before it.
    ///
    /// Proved, also of `end_point` and `is_kept_back`: Which numbers are kept back since the consistency point in progress
    /// began is known; once its root is durable, all others can be given out.
    pub fn begin_point(&mut self)
        ensures taken { (n : ℕ) → is_taken_in self.new n ≡ is_taken_in self.old n }
        ensures kept { (n : ℕ) → kept_of self.new n ≡ kept_of self.old n }
        ensures since { (n : ℕ) → since_of self.new n ≡ false }
    {
        self.marks.age();
    }

    /// The root of the consistency point is durable: numbers that were kept back before it began can be given
    /// out again.
    pub fn end_point(&mut self)
        ensures taken { (n : ℕ) → is_taken_in self.new n ≡ is_taken_in self.old n }
        ensures kept { (n : ℕ) → kept_of self.new n ≡ since_of self.old n }
        ensures since { (n : ℕ) → since_of self.new n ≡ since_of self.old n }
    {
        self.marks.forget();
        self.next = u32::from(ROOT_NUMBER);
    }

    /// No number is kept back any more.
    pub fn release_all(&mut self)
        ensures taken { (n : ℕ) → is_taken_in self.new n ≡ is_taken_in self.old n }
        ensures kept { (n : ℕ) → kept_of self.new n ≡ false }
        ensures since { (n : ℕ) → since_of self.new n ≡ false }
    {
        self.marks.release();
        self.next = u32::from(ROOT_NUMBER);
    }
}
