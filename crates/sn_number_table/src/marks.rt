//! What is known of each number.
ghost use Rattle.std.specs.Prelude.{◌≡◌, ℕ, ◌^◌, IfOk, vec_len};

use crate::mark::{Mark, age, forget, release};
use std::alloc::{AllocError, Global};

/// How many numbers there are, those that no node can have among them.
const NUMBERS: usize = 65_536;

/// A mark for each number. All memory is taken at first.
#[derive(Drop)]
pub(crate) struct Marks {
    marks: Vec<Mark>,
    ghost all: { vec_len marks ≡ 2 ^ 16 },
}

impl Marks {
    ghost use Rattle.sn_number_table.specs.declared.mark.Mark.TheVariants.{Free};
    ghost use Rattle.sn_number_table.specs.Marked.{Sets, mark_at};
    ghost use Rattle.sn_number_table.specs.Marks.{aged, forgotten, has_node, is_kept, is_used, released};

    /// All numbers are free. The memory for all 65,536 marks is taken here.
    pub fn new(alloc: Global) -> Result<Marks, AllocError>
        ensures { IfOk result (λ marks. (n : ℕ) → mark_at marks n ≡ Free) }
    {
        Ok(Marks {
            marks: Vec::from_elem(alloc, Mark::Free, NUMBERS)?,
        })
    }

    /// What is known of a number.
    pub fn get(&self, number: u16) -> Mark
        ensures { result ≡ mark_at self.now number }
    {
        self.marks[number as usize]
    }

    /// Sets what is known of a number.
    pub fn set(&mut self, number: u16, mark: Mark)
        ensures { Sets number mark self.old self.new }
    {
        self.marks[number as usize] = mark;
    }

    /// Whether a node has the number.
    pub fn has_node(&self, number: u16) -> bool
        ensures { result ≡ has_node (mark_at self.now number) }
    {
        self.get(number).has_node()
    }

    /// Whether the number is kept back.
    pub fn is_kept(&self, number: u16) -> bool
        ensures { result ≡ is_kept (mark_at self.now number) }
    {
        self.get(number).is_kept()
    }

    /// Whether a search for a free number passes over the number.
    pub fn is_used(&self, number: u16) -> bool
        ensures { result ≡ is_used (mark_at self.now number) }
    {
        self.get(number).is_used()
    }

    /// A consistency point begins.
    pub fn age(&mut self)
        ensures { (n : ℕ) → mark_at self.new n ≡ aged (mark_at self.old n) }
    {
        age(self.marks.as_mut_slice());
    }

    /// The root of the consistency point is durable.
    pub fn forget(&mut self)
        ensures { (n : ℕ) → mark_at self.new n ≡ forgotten (mark_at self.old n) }
    {
        forget(self.marks.as_mut_slice());
    }

    /// No number is kept back any more.
    pub fn release(&mut self)
        ensures { (n : ℕ) → mark_at self.new n ≡ released (mark_at self.old n) }
    {
        release(self.marks.as_mut_slice());
    }
}
