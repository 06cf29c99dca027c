//! Names that changed, merged over others.
ghost use Rattle.std.specs.Prelude.{◌≡◌, ℕ, ◌∷◌, ◌++◌, List, Option as TheOption, IfOk, OnOk, if◌then◌else◌};
ghost use Rattle.sn_model.specs.declared.link.Link.{Link as TheLink};
ghost use Rattle.sn_model.specs.Tree.{link_cmp};
ghost use Rattle.sn_live_files.specs.Listing.{merged, one_merged, set_all, set_first};

use sn_model::{Link, Word};
use std::alloc::{AllocError, Global};
use std::cmp::Ordering;

// Puts a name that changed after those that are there, unless it went.
fn put(
    alloc: Global,
    change: &(Link, Option<u16>),
    names: &mut Vec<(Link, u16)>,
) -> Result<(), AllocError>
    ensures { (rest : List (TheLink × ℕ)) → OnOk result (names.new.items ++ rest ≡ names.old.items ++ set_first change.now rest) }
{
    let Some(number) = change.1 else {
        return Ok(());
    };
    let link = Link {
        directory: change.0.directory,
        name: Word::new(alloc, change.0.name.as_bytes())?,
    };
    names.push((link, number))?;
    Ok(())
}

// The changes after a name, and whether it is among those up to there.
#[derive(Clone, Copy)]
struct Passed<'a> {
    rest: &'a [(Link, Option<u16>)],
    has_name: bool,
}

// Puts the names that changed and come before one after those that are there, and that one too if it changed.
fn put_up_to<'a>(
    alloc: Global,
    changed: &'a [(Link, Option<u16>)],
    name: &Link,
    names: &mut Vec<(Link, u16)>,
) -> Result<Passed<'a>, AllocError>
    ensures { IfOk result (λ passed. (number : ℕ) (on : List (TheLink × TheOption ℕ) → List (TheLink × ℕ))
        → names.old.items ++ one_merged link_cmp (name.now, number) on changed.now
        ≡ names.new.items ++ (if passed.has_name then on passed.rest.now else (name.now, number) ∷ on passed.rest.now)) }
{
    let mut rest = changed;
    while let Some((first, others)) = rest.split_first() {
        match first.0.cmp(name) {
            Ordering::Less => put(alloc, first, names)?,
            Ordering::Equal => {
                put(alloc, first, names)?;
                return Ok(Passed {
                    rest: others,
                    has_name: true,
                });
            }
            Ordering::Greater => break,
        }
        rest = others;
    }
    Ok(Passed {
        rest,
        has_name: false,
    })
}

// Puts all names that changed after those that are there.
fn put_all(
    alloc: Global,
    changed: &[(Link, Option<u16>)],
    names: &mut Vec<(Link, u16)>,
) -> Result<(), AllocError>
    ensures { OnOk result (names.new.items ≡ names.old.items ++ set_all changed.now) }
{
    for change in changed {
        put(alloc, change, names)?;
    }
    Ok(())
}

/// Names that changed merged over those below, both in order: each that changed has its number, or goes.
pub(crate) fn merged(
    alloc: Global,
    changed: &[(Link, Option<u16>)],
    below: Vec<(Link, u16)>,
) -> Result<Vec<(Link, u16)>, AllocError>
    ensures { IfOk result (λ names. names.items ≡ merged link_cmp changed.now below.items) }
{
    let mut names = Vec::new(alloc);
    let mut rest = changed;
    for (name, number) in below {
        let passed = put_up_to(alloc, rest, &name, &mut names)?;
        rest = passed.rest;
        if !passed.has_name {
            names.push((name, number))?;
        }
    }
    put_all(alloc, rest, &mut names)?;
    Ok(names)
}
