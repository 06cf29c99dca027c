//! Entries as objects.
ghost use Rattle.std.specs.Prelude.{◌≡◌, Ok, Err, IfOk, IsErrOf};
ghost use Rattle.sn_import_entry.specs.Entries as entries;
ghost use Rattle.sn_import_entry.specs.declared.fault.EntryFault.{EntryFault as Fault};
ghost use Rattle.sn_import_entry.specs.declared.fault.ObjectFault.TheVariants.{Entry};

use crate::fault::ObjectFault;
use crate::form::{Form, form_of};
use crate::names::Names;
use crate::paths::{is_top, lead, link, path};
use crate::rights::{directory_rights, file_rights};
use sn_import::{Object, What};
use sn_model::Word;
use sn_untar::Member;
use std::alloc::Global;

fn file(
    alloc: Global,
    names: &Names<'_>,
    directory: &[u8],
    member: &Member,
) -> Result<Object, ObjectFault>
    ensures made { IfOk result (λ object. entries.file names.now directory.now member.now ≡ Ok object) }
    ensures refused { (fault : Fault) → IsErrOf result (Entry fault) → entries.file names.now directory.now member.now ≡ Err fault }
{
    let path = path(directory, member.path.as_slice())?;
    let rights = file_rights(names, member)?;
    Ok(Object {
        path: Word::new(alloc, path.as_slice())?,
        lead: lead(directory),
        what: What::File(rights.keep(alloc)?),
    })
}

fn hard_link(alloc: Global, directory: &[u8], member: &Member) -> Result<Object, ObjectFault>
    ensures made { IfOk result (λ object. entries.hard_link directory.now member.now ≡ Ok object) }
    ensures refused { (fault : Fault) → IsErrOf result (Entry fault) → entries.hard_link directory.now member.now ≡ Err fault }
{
    let path = path(directory, member.path.as_slice())?;
    let old = link(directory, member.link.as_slice())?;
    Ok(Object {
        path: Word::new(alloc, path.as_slice())?,
        lead: lead(directory),
        what: What::HardLink(Word::new(alloc, old.as_slice())?),
    })
}

// The directory that the archive goes into.
fn top(
    alloc: Global,
    names: &Names<'_>,
    directory: &[u8],
    member: &Member,
) -> Result<Object, ObjectFault>
    ensures made { IfOk result (λ object. entries.top names.now directory.now member.now ≡ Ok object) }
    ensures refused { (fault : Fault) → IsErrOf result (Entry fault) → entries.top names.now directory.now member.now ≡ Err fault }
{
    let rights = directory_rights(names, member)?;
    Ok(Object {
        path: Word::new(alloc, directory)?,
        lead: directory.len(),
        what: What::Top(rights.keep(alloc)?),
    })
}

fn directory_below(
    alloc: Global,
    names: &Names<'_>,
    directory: &[u8],
    member: &Member,
) -> Result<Object, ObjectFault>
    ensures made { IfOk result (λ object. entries.directory_below names.now directory.now member.now ≡ Ok object) }
    ensures refused { (fault : Fault) → IsErrOf result (Entry fault) → entries.directory_below names.now directory.now member.now ≡ Err fault }
{
    let path = path(directory, member.path.as_slice())?;
    let rights = directory_rights(names, member)?;
    Ok(Object {
        path: Word::new(alloc, path.as_slice())?,
        lead: lead(directory),
        what: What::Directory(rights.keep(alloc)?),
    })
}

fn directory_object(
    alloc: Global,
    names: &Names<'_>,
    directory: &[u8],
    member: &Member,
) -> Result<Object, ObjectFault>
    ensures made { IfOk result (λ object. entries.directory names.now directory.now member.now ≡ Ok object) }
    ensures refused { (fault : Fault) → IsErrOf result (Entry fault) → entries.directory names.now directory.now member.now ≡ Err fault }
{
    if is_top(member.path.as_slice()) {
        top(alloc, names, directory, member)
    } else {
        directory_below(alloc, names, directory, member)
    }
}

fn object_as(
    alloc: Global,
    names: &Names<'_>,
    directory: &[u8],
    member: &Member,
    form: Form,
) -> Result<Object, ObjectFault>
    ensures made { IfOk result (λ object. entries.object_as names.now directory.now member.now form ≡ Ok object) }
    ensures refused { (fault : Fault) → IsErrOf result (Entry fault) → entries.object_as names.now directory.now member.now form ≡ Err fault }
{
    match form {
        Form::File => file(alloc, names, directory, member),
        Form::Directory => directory_object(alloc, names, directory, member),
        Form::HardLink => hard_link(alloc, directory, member),
    }
}

/// The object that an entry makes in a directory of an image, whose path has no slash at its end but the root's.
///
/// Proved: An entry makes a file, a directory or a hard link, at the path that its name stands for below the directory, or changes
/// that directory itself where its name is no other. It has the owner, the group, S_ISGID and S_ISVTX of its entry, the ACL of its
/// text, else the three entries of its mode, and a directory the default ACL of its text. A link is to a path below the same directory.
/// Proved: Where an entry isn't made, the fault that is told is the first of these: it is sparse, of another kind or too large;
/// its name, or that of its link, has `..`, a byte 0 or too many bytes, or is empty; its user or its group has more than 32 bits; an ACL
/// is misspelt, or names a user or a group that isn't known.
pub fn object_of(
    alloc: Global,
    names: &Names<'_>,
    directory: &[u8],
    member: &Member,
) -> Result<Object, ObjectFault>
    ensures made { IfOk result (λ object. entries.object_of names.now directory.now member.now ≡ Ok object) }
    ensures refused { (fault : Fault) → IsErrOf result (Entry fault) → entries.object_of names.now directory.now member.now ≡ Err fault }
{
    let form = form_of(member)?;
    object_as(alloc, names, directory, member, form)
}
