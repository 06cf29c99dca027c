//! An entry of a listing that is held.
ghost use Rattle.std.specs.Prelude.{◌≡◌, ◌≤◌, IfOk, length};

use sn_fuse_replies::EntryKind;
use sn_model::Word;
use std::alloc::{AllocError, Global};

/// A name of a directory, with what it is the name of.
#[derive(Drop)]
pub struct HeldEntry {
    /// The number that `d_ino` reports.
    pub number: u64,
    pub kind: EntryKind,
    /// The name, as the mount shows it: 255 bytes at the most.
    pub name: Word,
    ghost short: { length name ≤ 255 },
}

impl HeldEntry {
    /// Keeps a copy of the name.
    pub fn new(
        alloc: Global,
        number: u64,
        kind: EntryKind,
        name: &[u8],
    ) -> Result<HeldEntry, AllocError>
        requires { length name.now ≤ 255 }
        ensures number { IfOk result (λ entry. entry.number ≡ number) }
        ensures kind { IfOk result (λ entry. entry.kind ≡ kind) }
        ensures name { IfOk result (λ entry. entry.name ≡ name.now) }
    {
        Ok(HeldEntry {
            number,
            kind,
            name: Word::new(alloc, name)?,
        })
    }
}
