//! The numbers of the files without names.
ghost use Rattle.std.specs.Prelude.{◌≡◌, ℕ, ◌^◌, ◌==◌, ◌&&◌, ◌||◌, not, false, IfOk, vec_len};

use std::alloc::{AllocError, Global};

/// How many numbers there are, those that no node can have among them.
const NUMBERS: usize = 65_536;

/// Which numbers are those of files without names, beside a tree that is read. All memory is taken at first.
///
/// Proved: A list of the numbers of files without names has exactly those that were put into it and not taken out since; all
/// memory is taken at first.
#[derive(Drop)]
pub struct NamelessFiles {
    listed: Vec<bool>,
    ghost all: { vec_len listed ≡ 2 ^ 16 },
}

impl NamelessFiles {
    ghost use Rattle.sn_number_table.specs.Nameless.{is_listed};

    /// No number is listed. The memory for all 65,536 marks is taken here.
    pub fn new(alloc: Global) -> Result<NamelessFiles, AllocError>
        ensures { IfOk result (λ files. (n : ℕ) → is_listed files n ≡ false) }
    {
        Ok(NamelessFiles {
            listed: Vec::from_elem(alloc, false, NUMBERS)?,
        })
    }

    /// Whether a number is listed.
    pub fn contains(&self, number: u16) -> bool
        ensures { result ≡ is_listed self.now number }
    {
        self.listed[number as usize]
    }

    /// Lists a number. It takes no memory.
    pub fn insert(&mut self, number: u16)
        ensures { (n : ℕ) → is_listed self.new n ≡ (n == number || is_listed self.old n) }
    {
        self.listed[number as usize] = true;
    }

    /// Lists a number no longer, if it did. It takes no memory.
    pub fn remove(&mut self, number: u16)
        ensures { (n : ℕ) → is_listed self.new n ≡ (not (n == number) && is_listed self.old n) }
    {
        self.listed[number as usize] = false;
    }
}
