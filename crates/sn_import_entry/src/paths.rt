//! Where entries go.
ghost use Rattle.std.specs.Prelude.{◌≡◌, ◌+◌, length, IfOk, IfErr, Ok, Err};
ghost use Rattle.sn_import_entry.specs.Entries as entries;

use crate::fault::EntryFault;
use sn_untar::{NameFault, Place, place_of};
use sn_walk::PATH_MAX;

// A directory as what a path below it begins with.
fn front(directory: &[u8]) -> &[u8]
    ensures { result.now ≡ entries.front directory.now }
{
    if directory == b"/".as_slice() {
        &[]
    } else {
        directory
    }
}

/// How many bytes a path below a directory has before its first name.
pub fn lead(directory: &[u8]) -> usize
    ensures { result ≡ entries.lead directory.now }
{
    front(directory).len() + 1
}

fn joined(front: &[u8], place: &Place) -> Result<Place, NameFault>
    ensures ok { IfOk result (λ path. entries.joined front.now place.now.items ≡ Ok path.items) }
    ensures err { IfErr result (λ fault. entries.joined front.now place.now.items ≡ Err fault) }
{
    if front.len() > PATH_MAX || front.len() + place.len() > PATH_MAX {
        return Err(NameFault::LongPath);
    }
    let mut path = Place::new();
    path.try_extend_from_slice(front).unwrap();
    path.try_extend_from_slice(place.as_slice()).unwrap();
    Ok(path)
}

// The path below a directory that a name stands for: the name of an entry.
fn below(directory: &[u8], name: &[u8]) -> Result<Place, NameFault>
    ensures ok { IfOk result (λ path. entries.below directory.now name.now ≡ Ok path.items) }
    ensures err { IfErr result (λ fault. entries.below directory.now name.now ≡ Err fault) }
{
    let place = place_of(name)?;
    joined(front(directory), &place)
}

/// Whether a name is that of the directory itself.
pub fn is_top(name: &[u8]) -> bool
    ensures { result ≡ entries.is_top name.now }
{
    match place_of(name) {
        Ok(place) => place.is_empty(),
        Err(_) => false,
    }
}

/// The path of an entry, below the directory that the archive goes into.
pub fn path(directory: &[u8], name: &[u8]) -> Result<Place, EntryFault>
    ensures ok { IfOk result (λ path. entries.path directory.now name.now ≡ Ok path.items) }
    ensures err { IfErr result (λ fault. entries.path directory.now name.now ≡ Err fault) }
{
    if is_top(name) {
        return Err(EntryFault::NameEmpty);
    }
    match below(directory, name) {
        Ok(path) => Ok(path),
        Err(fault) => Err(EntryFault::Name(fault)),
    }
}

/// The path that a hard link is to, which is below that directory too.
pub fn link(directory: &[u8], name: &[u8]) -> Result<Place, EntryFault>
    ensures ok { IfOk result (λ path. entries.link directory.now name.now ≡ Ok path.items) }
    ensures err { IfErr result (λ fault. entries.link directory.now name.now ≡ Err fault) }
{
    if is_top(name) {
        return Err(EntryFault::LinkEmpty);
    }
    match below(directory, name) {
        Ok(path) => Ok(path),
        Err(fault) => Err(EntryFault::Link(fault)),
    }
}
