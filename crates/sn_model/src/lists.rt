ghost use Rattle.std.specs.Prelude.{◌≡◌, IfOk};
ghost use Rattle.std.specs.Option.{option_copied};

use crate::Word;
use sn_acl::{Acl, Entry};
use std::alloc::{AllocError, Global};
use std::marker::Model;

/// The bytes that a read gave, or that a write brings.
#[derive(Drop)]
pub struct FileData {
    bytes: Vec<u8>,
}

impl Model for FileData {
    ghost use Rattle.std.specs.Prelude.{ℕ, List};

    ghost Value = { List ℕ };

    ghost view = { λ c. c.bytes.items };
}

impl FileData {
    /// Keeps these bytes as an answer.
    pub fn new(bytes: Vec<u8>) -> FileData
        ensures { result ≡ bytes.items }
    {
        FileData { bytes }
    }

    /// The bytes, as they were read.
    pub fn as_bytes(&self) -> &[u8]
        ensures { result.now ≡ self.now }
    {
        self.bytes.as_slice()
    }
}

/// Names in a row.
#[derive(Drop)]
pub struct Names {
    names: Vec<Word>,
}

impl Model for Names {
    ghost use Rattle.std.specs.Prelude.{ℕ, List};

    ghost Value = { List (List ℕ) };

    ghost view = { λ n. n.names.items };
}

impl Names {
    /// Keeps these names as an answer.
    pub fn new(names: Vec<Word>) -> Names
        ensures { result ≡ names.items }
    {
        Names { names }
    }

    /// The names, in their order.
    pub fn as_slice(&self) -> &[Word]
        ensures { result.now ≡ self.now }
    {
        self.names.as_slice()
    }
}

/// An ACL that takes memory for as many entries as it has.
#[derive(Drop)]
pub struct StoredAcl {
    entries: Vec<Entry>,
}

impl Model for StoredAcl {
    ghost use Rattle.std.specs.Prelude.{List};
    ghost use Rattle.sn_acl.specs.declared.entries.Entry.{Entry};
    ghost use Rattle.sn_acl.specs.AccessList.{IsValid};

    ghost Value = { List Entry };

    ghost view = { λ acl. acl.entries.items };

    ghost invariant = { λ acl. IsValid acl.entries.items };
}

impl StoredAcl {
    /// Keeps a copy of an ACL, which takes memory for its entries alone.
    pub fn new(alloc: Global, acl: &Acl) -> Result<StoredAcl, AllocError>
        ensures { IfOk result (λ stored. stored ≡ acl.now) }
    {
        let held = acl.entries();
        let mut entries = Vec::with_capacity(alloc, held.len())?;
        entries.extend_from_slice(held)?;
        Ok(StoredAcl { entries })
    }

    /// The same where there may be none.
    pub fn of_option(alloc: Global, acl: Option<&Acl>) -> Result<Option<StoredAcl>, AllocError>
        ensures { IfOk result (λ stored. stored ≡ option_copied acl.entry) }
    {
        match acl {
            Some(acl) => Ok(Some(StoredAcl::new(alloc, acl)?)),
            None => Ok(None),
        }
    }

    /// The ACL that is kept.
    pub fn to_acl(&self) -> Acl
        ensures { result ≡ self.now }
    {
        Acl::from_entries(self.entries.as_slice()).unwrap()
    }
}
