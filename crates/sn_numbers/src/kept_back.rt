ghost use Rattle.std.specs.Prelude.{◌≡◌, ℕ, ◌==◌, ◌||◌, ◌^◌, IfOk, false, map, vec_len};

use std::alloc::{AllocError, Global};

/// Whether a number is kept back, and since when.
#[derive(Clone, Copy, PartialEq, Eq)]
pub(crate) enum Mark {
    /// It can be given out.
    Free,
    /// Since before the consistency point in progress began, but after the durable root's did.
    BeforePoint,
    /// Since the consistency point in progress began, or the durable root's where none is.
    SincePoint,
}

impl Mark {
    ghost use Rattle.sn_numbers.specs.Marks.{aged, forgotten, is_kept};

    fn is_kept(self) -> bool
        ensures { result ≡ is_kept self }
    {
        self != Mark::Free
    }

    fn aged(self) -> Mark
        ensures { result ≡ aged self }
    {
        match self {
            Mark::SincePoint => Mark::BeforePoint,
            other => other,
        }
    }

    fn forgotten(self) -> Mark
        ensures { result ≡ forgotten self }
    {
        match self {
            Mark::BeforePoint => Mark::Free,
            other => other,
        }
    }
}

ghost use Rattle.sn_numbers.specs.Marks as change;

/// A consistency point begins.
fn age(marks: &mut [Mark])
    ensures { marks.new ≡ map change.aged marks.old }
{
    for mark in marks.iter_mut() {
        *mark = mark.aged();
    }
}

/// The root of the consistency point is durable.
fn forget(marks: &mut [Mark])
    ensures { marks.new ≡ map change.forgotten marks.old }
{
    for mark in marks.iter_mut() {
        *mark = mark.forgotten();
    }
}

/// The numbers that are kept back. All memory is taken at first.
#[derive(Drop)]
pub(crate) struct KeptBack {
    marks: Vec<Mark>,
    ghost all: { vec_len marks ≡ 2 ^ 16 },
}

impl KeptBack {
    ghost use Rattle.sn_numbers.specs.Back.{held_of, since_of};

    /// No number is kept back. The memory for all 65,536 marks is taken here.
    pub fn new(alloc: Global) -> Result<KeptBack, AllocError>
        ensures held { IfOk result (λ k. (n : ℕ) → held_of k n ≡ false) }
        ensures since { IfOk result (λ k. (n : ℕ) → since_of k n ≡ false) }
    {
        Ok(KeptBack {
            marks: Vec::from_elem(alloc, Mark::Free, 65_536)?,
        })
    }

    /// Whether a number is kept back.
    pub fn has(&self, number: u16) -> bool
        ensures { result ≡ held_of self.now number }
    {
        self.marks[usize::from(number)].is_kept()
    }

    /// Keeps a number back from now on.
    pub fn put(&mut self, number: u16)
        ensures held { (n : ℕ) → held_of self.new n ≡ (n == number || held_of self.old n) }
        ensures since { (n : ℕ) → since_of self.new n ≡ (n == number || since_of self.old n) }
    {
        self.marks[usize::from(number)] = Mark::SincePoint;
    }

    /// No number is kept back any more.
    pub fn clear(&mut self)
        ensures held { (n : ℕ) → held_of self.new n ≡ false }
        ensures since { (n : ℕ) → since_of self.new n ≡ false }
    {
        self.marks.fill(Mark::Free);
    }

    /// A consistency point begins: what is kept back is so since before it.
    pub fn begin_point(&mut self)
        ensures held { (n : ℕ) → held_of self.new n ≡ held_of self.old n }
        ensures since { (n : ℕ) → since_of self.new n ≡ false }
    {
        age(self.marks.as_mut_slice());
    }

    /// The root of the consistency point is durable: what was kept back before it began is so no more.
    pub fn end_point(&mut self)
        ensures held { (n : ℕ) → held_of self.new n ≡ since_of self.old n }
        ensures since { (n : ℕ) → since_of self.new n ≡ since_of self.old n }
    {
        forget(self.marks.as_mut_slice());
    }
}
