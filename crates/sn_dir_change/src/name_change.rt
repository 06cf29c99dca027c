//! A name of a directory that is to change.
ghost use Rattle.std.specs.Prelude.{◌≢◌, ◌↔◌, All, IsTrue};
ghost use Rattle.sn_dir_change.specs.Changes.{AreChanges, AreLinkChanges, IsChange};
ghost use Rattle.sn_dir_change.specs.UnderWay.{AreApart};
ghost use Rattle.sn_dir_change.specs.declared.name_change.NameChange.{NameChange as TheChange};

use sn_limits::is_name;
use std::cmp::Ordering;

/// What is to become of a name.
#[derive(Clone, Copy)]
pub struct NameChange<'a> {
    pub name: &'a [u8],
    /// The number that is to be under it, from 2 on. With `None` the name is taken out.
    pub number: Option<u16>,
}

// Whether what is to be there is a link. A name that is to go may be any bytes.
fn is_change(change: &NameChange<'_>) -> bool
    ensures { IsTrue result ↔ IsChange change.now }
{
    match change.number {
        Some(number) => number >= 2 && is_name(change.name),
        None => true,
    }
}

// Whether none of these is of a name.
fn is_new(earlier: &[NameChange<'_>], name: &[u8]) -> bool
    ensures { IsTrue result ↔ All (λ (change : TheChange). change.name.now ≢ name.now) earlier.now }
{
    for change in earlier {
        if change.name == name {
            return false;
        }
    }
    true
}

// Whether each of them can be made.
fn can_each(changes: &[NameChange<'_>]) -> bool
    ensures { IsTrue result ↔ AreLinkChanges changes.now }
{
    for change in changes {
        if !is_change(change) {
            return false;
        }
    }
    true
}

// Whether each name comes before the next one.
fn do_rise(changes: &[NameChange<'_>]) -> bool
    ensures { IsTrue result → AreApart changes.now }
{
    for i in 1..changes.len() {
        let Ordering::Less = changes[i - 1].name.cmp(changes[i].name) else {
            return false;
        };
    }
    true
}

// Whether no two are of one name, in any order.
fn are_apart(changes: &[NameChange<'_>]) -> bool
    ensures { IsTrue result ↔ AreApart changes.now }
{
    for i in 0..changes.len() {
        if !is_new(&changes[..i], changes[i].name) {
            return false;
        }
    }
    true
}

/// Whether these are changes of different names, to numbers and names that a directory can have. It is one pass
/// where the names rise; else each is compared with those before it.
///
/// Proved: The test is exact whether a list has each name once, with names and numbers that there can be.
pub fn are_changes(changes: &[NameChange<'_>]) -> bool
    ensures { IsTrue result ↔ AreChanges changes.now }
{
    if !can_each(changes) {
        return false;
    }
    if do_rise(changes) {
        return true;
    }
    are_apart(changes)
}
