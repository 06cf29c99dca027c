ghost use Rattle.std.specs.Prelude.{◌≡◌, ◌++◌, List, ℕ, IfOk, OnOk, is_some};
ghost use Rattle.std.specs.FinMap as map;
ghost use Rattle.std.specs.Option.{option_to_list};
ghost use Rattle.sn_accounts.specs.Lines.{account_of, accounts_of};

use crate::lines::account_of;
use sn_words::cut::cut;
use std::alloc::{AllocError, Global};
use std::collections::BTreeMap;
use std::marker::Model;

/// The numbers of users, or of groups, by their names. Seen as the map of the names to the numbers.
#[derive(Drop)]
pub struct Accounts<'a> {
    numbers: BTreeMap<&'a [u8], u32>,
}

impl<'a> Model for Accounts<'a> {
    ghost use Rattle.std.specs.Prelude.{ℕ, map};
    ghost use Rattle.std.specs.Coded.{coded_list, coded_ℕ};
    ghost use Rattle.std.specs.FinMap as fin;
    ghost use Rattle.std.specs.Cmp.Lexicographic.{slice_cmp};
    ghost use Rattle.std.specs.Ordering.{nat_cmp};

    ghost Value = { fin.FinMap (slice_cmp nat_cmp) ℕ };

    ghost coded = { fin.code (coded_list coded_ℕ) coded_ℕ };

    ghost view = { λ a. fin.from_entries (map (λ e. (e.0.now, e.1)) a.numbers.entries) };
}

impl<'a> Accounts<'a> {
    // None, which takes no memory.
    fn new(alloc: Global) -> Self
        ensures { result ≡ map.empty }
    {
        Accounts {
            numbers: BTreeMap::new(alloc),
        }
    }

    fn has(&self, name: &[u8]) -> bool
        ensures { result ≡ is_some (map.get self.now name.now) }
    {
        self.numbers.contains_key(name)
    }

    fn insert(&mut self, name: &'a [u8], number: u32) -> Result<(), AllocError>
        ensures { OnOk result (self.new ≡ map.insert self.old name.now number) }
    {
        self.numbers.insert(name, number)?;
        Ok(())
    }

    // Takes in the account of a line, unless an earlier line has the name.
    fn add_line(&mut self, line: &'a [u8]) -> Result<(), AllocError>
        ensures { OnOk result ((told : List (List ℕ × ℕ)) → self.old ≡ map.from_entries told → self.new ≡ map.from_entries (told ++ option_to_list (account_of line.now))) }
    {
        let Some(account) = account_of(line)? else {
            return Ok(());
        };
        if self.has(account.name) {
            return Ok(());
        }
        self.insert(account.name, account.number)?;
        Ok(())
    }

    /// Those of a text, as the C library reads them from files: of two lines with one name the first counts. An error is a
    /// want of memory.
    ///
    /// Proved: A text is read as the map of the accounts of its lines, in which the first line with a name counts.
    pub fn read(alloc: Global, text: &'a [u8]) -> Result<Self, AllocError>
        ensures { IfOk result (λ accounts. accounts ≡ map.from_entries (accounts_of text.now)) }
    {
        let mut accounts = Accounts::new(alloc);
        let mut rest = text;
        while let Some((line, others)) = cut(rest, b'\n') {
            accounts.add_line(line)?;
            rest = others;
        }
        accounts.add_line(rest)?;
        Ok(accounts)
    }

    /// The number of a name. It takes no memory.
    ///
    /// Proved: A name has the number that the map has.
    pub fn number(&self, name: &[u8]) -> Option<u32>
        ensures { result ≡ map.get self.now name.now }
    {
        self.numbers.get(name).copied()
    }
}
