ghost use Rattle.std.specs.Prelude.{◌≡◌, ℕ, ◌+◌, ◌==◌, ◌||◌, ◌&&◌, not, ◌<◌, ◌≤◌, ◌^◌, true, false, Some, is_some, IfOk, IfErr, OnOk, OnErr};
ghost use Rattle.std.specs.FinMap as map;
ghost use Rattle.sn_limits.specs.declared.limits.Limits.{Limits};
ghost use Rattle.sn_model.specs.Changes.{apply, take_node};
ghost use Rattle.sn_model.specs.NameTree.{IsTree};
ghost use Rattle.sn_model.specs.Settling.{is_nameless, loses, settled};
ghost use Rattle.sn_model.specs.Tests.{has_room};
ghost use Rattle.sn_model.specs.Tree.{Tree};
ghost use Rattle.sn_model.specs.World.{new_tree};
ghost use Rattle.sn_numbers.specs.Back.{held_of, since_of};
ghost use Rattle.sn_number_table.specs.Numbers.{AreTaken, is_taken, kept_after, since_after, next_after, next_number};
ghost use Rattle.sn_plain.specs.Plain.{Applies, tree_of};

use crate::kept_back::KeptBack;
use sn_limits::Limits;
use sn_model::{Change, Errno, Refusal};
use sn_plain::{ApplyError, PlainTree};
use sn_walk::ROOT_NUMBER;
use std::alloc::{AllocError, Global};

/// The live tree, and the numbers that are kept back: those of files that went with their last
/// descriptor. A new node gets none of them while another is left.
#[derive(Drop)]
pub struct NumberedTree {
    tree: PlainTree,
    kept_back: KeptBack,
    /// Each number from 2 on below this one has a node or is kept back.
    next: u32,
    ghost taken: { AreTaken (tree_of tree) (held_of kept_back) next },
}

fn is_taken(tree: &PlainTree, kept_back: &KeptBack, number: u16) -> bool
    ensures { result ≡ is_taken (tree_of tree.now) (held_of kept_back.now) number }
{
    tree.has_node(number) || kept_back.has(number)
}

/// The first number from one on that a new node can get, or 65,536.
fn first_free(tree: &PlainTree, kept_back: &KeptBack, from: u32) -> u32
    requires { from ≤ 2 ^ 16 }
    ensures low { from ≤ result }
    ensures high { result ≤ 2 ^ 16 }
    ensures taken { (number : ℕ) → from ≤ number → number < result → is_taken (tree_of tree.now) (held_of kept_back.now) number ≡ true }
    ensures free { result < 2 ^ 16 → is_taken (tree_of tree.now) (held_of kept_back.now) result ≡ false }
{
    for number in from..65_536 {
        if !is_taken(tree, kept_back, number as u16) {
            return number;
        }
    }
    65_536
}

/// Where a number that is kept back was given out, no other was left, and none is kept back any more.
/// It hands on the next number.
fn release(kept_back: &mut KeptBack, next: u32, number: u16) -> u32
    ensures kept { (n : ℕ) → held_of kept_back.new n ≡ (held_of kept_back.old n && not (held_of kept_back.old number)) }
    ensures since { (n : ℕ) → since_of kept_back.new n ≡ (since_of kept_back.old n && not (held_of kept_back.old number)) }
    ensures next { (tree : Tree) → AreTaken tree (held_of kept_back.old) next → AreTaken tree (held_of kept_back.new) result }
{
    if !kept_back.has(number) {
        return next;
    }
    kept_back.clear();
    u32::from(ROOT_NUMBER)
}

/// The next number once one got a node. Where that wasn't the next one, a search has just passed over
/// what lies between: it is passed over once more here, and then by no search.
fn next_after_make(tree: &PlainTree, kept_back: &KeptBack, next: u32, number: u16) -> u32
    requires taken { AreTaken (tree_of tree.now) (held_of kept_back.now) next }
    requires there { is_some (map.get (tree_of tree.now).nodes number) ≡ true }
    ensures { AreTaken (tree_of tree.now) (held_of kept_back.now) result }
{
    let number = u32::from(number);
    if number == next {
        return next + 1;
    }
    if number < next {
        return next;
    }
    first_free(tree, kept_back, next)
}

/// The next number once one has lost its node, or may have.
fn next_after_loss(tree: &PlainTree, next: u32, lost: Option<u16>) -> u32
    ensures { result ≡ next_after (tree_of tree.now) next lost }
{
    let Some(number) = lost else {
        return next;
    };
    if tree.has_node(number) {
        return next;
    }
    next.min(u32::from(number)).max(u32::from(ROOT_NUMBER))
}

impl NumberedTree {
    ghost use Rattle.sn_numbers.specs.Live.{kept_back_of, kept_since_of, live_of};

    /// A root directory alone, and no number kept back.
    pub fn new(alloc: Global) -> Result<NumberedTree, AllocError>
        ensures tree { IfOk result (λ t. live_of t ≡ new_tree) }
        ensures none { IfOk result (λ t. (n : ℕ) → kept_back_of t n ≡ false) }
        ensures since { IfOk result (λ t. (n : ℕ) → kept_since_of t n ≡ false) }
    {
        NumberedTree::over(alloc, PlainTree::new(alloc)?)
    }

    /// A tree that is there already, and no number kept back.
    pub fn over(alloc: Global, tree: PlainTree) -> Result<NumberedTree, AllocError>
        ensures tree { IfOk result (λ t. live_of t ≡ tree_of tree) }
        ensures none { IfOk result (λ t. (n : ℕ) → kept_back_of t n ≡ false) }
        ensures since { IfOk result (λ t. (n : ℕ) → kept_since_of t n ≡ false) }
    {
        let kept_back = KeptBack::new(alloc)?;
        Ok(NumberedTree {
            tree,
            kept_back,
            next: u32::from(ROOT_NUMBER),
        })
    }

    /// The tree itself, to look things up in.
    pub fn tree(&self) -> &PlainTree
        ensures { tree_of result.now ≡ live_of self.now }
    {
        &self.tree
    }

    /// The number that a new node gets: the least that no node has and that isn't kept back, or the
    /// least that no node has where there is no other.
    ///
    /// Proved, also of `apply`: A new node gets the least number that no node has and that isn't kept back, or, where there
    /// is none but those, the least of them, and then none is kept back any more.
    pub fn next_number(&self, limits: &Limits) -> Option<u16>
        ensures { result ≡ next_number limits.now (live_of self.now) (kept_back_of self.now) }
    {
        let number = first_free(&self.tree, &self.kept_back, self.next);
        if number <= u32::from(limits.largest_number) {
            return Some(number as u16);
        }
        self.tree.least_unused(limits)
    }

    /// The number that a new node of a directory gets. It is `Elimit` where all numbers are in use, or
    /// the directory has all the names that it can have: a number that is kept back isn't in use.
    pub fn has_room(&self, limits: &Limits, directory: u16) -> Result<u16, Refusal>
        ensures room { OnOk result (has_room limits.now (live_of self.now) directory ≡ Ok tt) }
        ensures number { IfOk result (λ number. next_number limits.now (live_of self.now) (kept_back_of self.now) ≡ Some number) }
        ensures refused { IfErr result (λ refusal. has_room limits.now (live_of self.now) directory ≡ Err refusal) }
    {
        match self.next_number(limits) {
            Some(number) if self.tree.names_in(directory) < u64::from(limits.names) => Ok(number),
            _ => Err(Refusal::plain(Errno::Elimit)),
        }
    }

    /// The number that a change takes a name of.
    pub fn loses(&self, change: &Change<'_>) -> Option<u16>
        ensures { result ≡ loses change.now (live_of self.now) }
    {
        match change {
            Change::Remove { directory, name } => self.tree.link(*directory, name.as_slice()),
            Change::Rename {
                new_directory,
                new_name,
                ..
            } => self.tree.link(*new_directory, new_name.as_slice()),
            _ => None,
        }
    }

    /// Makes a change of the tree. All memory is taken before anything is changed. Where it gives out
    /// a number that is kept back, none is kept back any more.
    pub fn apply(
        &mut self,
        alloc: Global,
        limits: &Limits,
        change: &Change<'_>,
    ) -> Result<(), ApplyError>
        requires { (l : Limits) × IsTree l (live_of self.old) }
        ensures tree { Applies result (apply limits.now change.now (live_of self.old)) (live_of self.old) (live_of self.new) }
        ensures kept { OnOk result ((n : ℕ) → kept_back_of self.new n ≡ kept_after change.now (kept_back_of self.old) n) }
        ensures since { OnOk result ((n : ℕ) → kept_since_of self.new n
            ≡ since_after change.now (kept_back_of self.old) (kept_since_of self.old) n) }
        ensures same { OnErr result ((n : ℕ) → kept_back_of self.new n ≡ kept_back_of self.old n) }
        ensures same_since { OnErr result ((n : ℕ) → kept_since_of self.new n ≡ kept_since_of self.old n) }
    {
        let lost = self.loses(change);
        match self.tree.apply(alloc, limits, change) {
            Ok(()) => {}
            Err(e) => return Err(e),
        }
        match change {
            Change::Make { number, .. } => {
                let next = release(&mut self.kept_back, self.next, *number);
                self.next = next_after_make(&self.tree, &self.kept_back, next, *number);
            }
            _ => self.next = next_after_loss(&self.tree, self.next, lost),
        }
        Ok(())
    }

    /// Takes a file away that went with its last descriptor, and that no name stands for: its number
    /// is kept back. It takes no memory.
    ///
    /// Proved: Kept back is the number of a file that a close or a logout dropped; that takes no memory.
    pub fn drop_closed(&mut self, number: u16)
        requires number { 2 ≤ number }
        requires nameless { is_nameless (live_of self.old) number (map.get (live_of self.old).nodes number) ≡ true }
        ensures tree { live_of self.new ≡ take_node (live_of self.old) number }
        ensures kept { (n : ℕ) → kept_back_of self.new n ≡ (n == number || kept_back_of self.old n) }
        ensures since { (n : ℕ) → kept_since_of self.new n ≡ (n == number || kept_since_of self.old n) }
    {
        self.tree.drop_file(number);
        self.kept_back.put(number);
    }

    /// Takes a file away that went with its last name. Its number can be given out at once. It takes
    /// no memory.
    ///
    /// Proved: A file that goes with its last name leaves its number free.
    pub fn drop_file(&mut self, number: u16)
        requires number { 2 ≤ number }
        requires nameless { is_nameless (live_of self.old) number (map.get (live_of self.old).nodes number) ≡ true }
        ensures tree { live_of self.new ≡ take_node (live_of self.old) number }
        ensures kept { (n : ℕ) → kept_back_of self.new n ≡ kept_back_of self.old n }
        ensures since { (n : ℕ) → kept_since_of self.new n ≡ kept_since_of self.old n }
    {
        self.tree.drop_file(number);
        self.next = next_after_loss(&self.tree, self.next, Some(number));
    }

    /// Takes all files away that no name stands for. No number is kept back any more. It takes no
    /// memory, and passes over all numbers.
    ///
    /// Proved, also of `NumberedTree::over`: A settled tree keeps no number back, nor does one that was there already.
    pub fn settle(&mut self)
        ensures tree { live_of self.new ≡ settled (live_of self.old) }
        ensures none { (n : ℕ) → kept_back_of self.new n ≡ false }
        ensures since { (n : ℕ) → kept_since_of self.new n ≡ false }
    {
        self.tree.settle();
        self.kept_back.clear();
        self.next = first_free(&self.tree, &self.kept_back, u32::from(ROOT_NUMBER));
    }

    /// Whether a number is kept back: its file went with its last descriptor, since the durable root's point
    /// began.
    pub fn is_kept_back(&self, number: u16) -> bool
        ensures { result ≡ kept_back_of self.now number }
    {
        self.kept_back.has(number)
    }

    /// A consistency point begins: what is kept back so far is so since before it.
    ///
    /// Proved, also of `end_point` and `is_kept_back`: Which numbers are kept back since the consistency point in progress
    /// began is known; once its root is durable, all others can be given out.
    pub fn begin_point(&mut self)
        ensures tree { live_of self.new ≡ live_of self.old }
        ensures kept { (n : ℕ) → kept_back_of self.new n ≡ kept_back_of self.old n }
        ensures since { (n : ℕ) → kept_since_of self.new n ≡ false }
    {
        self.kept_back.begin_point();
    }

    /// The root of the consistency point is durable: numbers that were kept back before it began can be given
    /// out again.
    pub fn end_point(&mut self)
        ensures tree { live_of self.new ≡ live_of self.old }
        ensures kept { (n : ℕ) → kept_back_of self.new n ≡ kept_since_of self.old n }
        ensures since { (n : ℕ) → kept_since_of self.new n ≡ kept_since_of self.old n }
    {
        self.kept_back.end_point();
        self.next = u32::from(ROOT_NUMBER);
    }
}
