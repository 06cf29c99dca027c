//! One entry of an archive.
ghost use Rattle.std.specs.Prelude.{◌≡◌, ◌++◌, ◌∷◌, ℕ, List, [], Some, IfErr, IfOk, true, false};
ghost use Rattle.sn_import.specs.declared.object.Object.{Object as Made};
ghost use Rattle.sn_untar.specs.Steps.{state_of};
ghost use Rattle.sn_import_calls.specs.Acts.{Act};
ghost use Rattle.sn_import_calls.specs.Carried.{Adds, Grows, stop_of};
ghost use Rattle.sn_import_files.specs.Entries as entries;
ghost use Rattle.sn_import_files.specs.Entries.{IsDone, IsMade, kept};
ghost use Rattle.sn_import_files.specs.Files.{AwaitsKind, AwaitsWhat, Came};
ghost use Rattle.sn_import_files.specs.Streams.{begun, longer};
ghost use Rattle.sn_import_calls.specs.declared.stop.Stop.TheVariants.{Memory as no_memory};

use crate::files::fill;
use sn_import::{Object, What};
use sn_import_calls::{Calls, Stop, Why, open};
use sn_import_entry::{Names, ObjectFault, has_set_uid, object_of};
use sn_untar::{Member, Untar};
use std::alloc::Global;
use std::io::Read;

fn rights_wait(what: &What) -> bool
    ensures { result ≡ entries.rights_wait what.now }
{
    matches!(what, What::Directory(_) | What::Top(_))
}

// Makes the calls after those that open an object: a directory has none until the end.
fn follow<R: Read, C: Calls>(
    alloc: Global,
    archive: &mut R,
    untar: &mut Untar,
    to: &mut C,
    object: &Object,
    fd: u32,
    size: u64,
) -> Result<(), Stop>
    requires { AwaitsWhat object.now.what (state_of untar.old) size }
    ensures { (came : List ℕ) × Came (state_of untar.old) (R.remaining archive.old) came (state_of untar.new) (R.remaining archive.new) (stop_of result)
        × Adds (C.did to.old) (C.did to.new) (λ acts. entries.IsFinished object.now.what fd object.now size came acts (stop_of result)) }
{
    match &object.what {
        What::File(_) => fill(alloc, archive, untar, to, object, fd, size),
        _ => Ok(()),
    }
}

// Makes the calls of an object, with the content that follows.
fn carry<R: Read, C: Calls>(
    alloc: Global,
    archive: &mut R,
    untar: &mut Untar,
    to: &mut C,
    object: &Object,
    size: u64,
) -> Result<(), Stop>
    requires { AwaitsWhat object.now.what (state_of untar.old) size }
    ensures { (came : List ℕ) × Came (state_of untar.old) (R.remaining archive.old) came (state_of untar.new) (R.remaining archive.new) (stop_of result)
        × Adds (C.did to.old) (C.did to.new) (λ acts. IsMade object.now size came acts (stop_of result)) }
{
    let fd = open(alloc, to, object)?;
    follow(alloc, archive, untar, to, object, fd, size)
}

// Keeps a directory until the end.
fn keep(object: Object, directories: &mut Vec<Object>) -> Result<(), Stop>
    ensures kept { directories.new.items ≡ directories.old.items ++ kept object (stop_of result) }
    ensures memory { IfErr result (λ stop. (stop ≡ no_memory) × (entries.rights_wait object.what ≡ true)) }
{
    if rights_wait(&object.what) {
        directories.push(object)?;
        return Ok(());
    }
    Ok(())
}

// The same, and keeps a directory until the end.
fn carry_kept<R: Read, C: Calls>(
    alloc: Global,
    archive: &mut R,
    untar: &mut Untar,
    to: &mut C,
    object: Object,
    size: u64,
    directories: &mut Vec<Object>,
) -> Result<(), Stop>
    requires { AwaitsWhat object.what (state_of untar.old) size }
    ensures kept { directories.new.items ≡ directories.old.items ++ kept object (stop_of result) }
    ensures made { (came : List ℕ) × Came (state_of untar.old) (R.remaining archive.old) came (state_of untar.new) (R.remaining archive.new) (stop_of result)
        × Adds (C.did to.old) (C.did to.new) (λ acts. IsMade object size came acts (stop_of result)) }
{
    carry(alloc, archive, untar, to, &object, size)?;
    keep(object, directories)
}

/// Reports what is wrong with an entry, by its place in the archive, from 1 on, and its name there.
pub fn report<C: Calls>(to: &mut C, place: u64, member: &Member, why: Why)
    ensures { Grows (C.did to.old) (C.did to.new) (entries.report place member.now why ∷ []) }
{
    to.report(Some(place), member.path.as_slice(), why);
}

#[tactic(auto, using(sn_import_calls::proofs::Made::adds_none))]
fn report_set_uid<C: Calls>(to: &mut C, place: u64, member: &Member)
    ensures { Grows (C.did to.old) (C.did to.new) (entries.set_uid_told place member.now) }
{
    if has_set_uid(member) {
        report(to, place, member, Why::SetUid);
    }
}

#[tactic(auto, using(sn_import_calls::proofs::Made::adds_none))]
// Reports what stopped an entry, if something did.
fn report_stop<C: Calls>(to: &mut C, place: u64, member: &Member, outcome: &Result<(), Stop>)
    ensures { Grows (C.did to.old) (C.did to.new) (entries.stop_told place member.now (stop_of outcome.now)) }
{
    if let Err(stop) = outcome {
        report(to, place, member, Why::Stop(*stop));
    }
}

// Makes what an entry makes.
fn make_object<R: Read, C: Calls>(
    alloc: Global,
    archive: &mut R,
    untar: &mut Untar,
    to: &mut C,
    place: u64,
    member: &Member,
    object: Object,
    directories: &mut Vec<Object>,
) -> Result<(), Stop>
    requires { AwaitsWhat object.what (state_of untar.old) member.now.size }
    ensures kept { directories.new.items ≡ directories.old.items ++ kept object (stop_of result) }
    ensures made { (came : List ℕ) × Came (state_of untar.old) (R.remaining archive.old) came (state_of untar.new) (R.remaining archive.new) (stop_of result)
        × Adds (C.did to.old) (C.did to.new) (λ acts. (made : List Act) × (acts ≡ entries.set_uid_told place member.now ++ made ++ entries.stop_told place member.now (stop_of result))
        × IsMade object member.now.size came made (stop_of result)) }
{
    report_set_uid(to, place, member);
    let size = member.size;
    let outcome = carry_kept(alloc, archive, untar, to, object, size, directories);
    report_stop(to, place, member, &outcome);
    outcome
}

// Reports why an entry has no object.
fn refuse<C: Calls>(to: &mut C, place: u64, member: &Member, fault: ObjectFault) -> Result<(), Stop>
    ensures told { Grows (C.did to.old) (C.did to.new) (entries.report place member.now (entries.fault_told fault) ∷ []) }
    ensures stop { stop_of result ≡ entries.fault_stop fault }
{
    match fault {
        ObjectFault::Entry(fault) => {
            report(to, place, member, Why::Fault(fault));
            Ok(())
        }
        ObjectFault::Memory => {
            report(to, place, member, Why::Stop(Stop::Memory));
            Err(Stop::Memory)
        }
    }
}

/// Makes an entry at this place of the archive, from 1 on, with the content that follows, below a directory, and adds a directory that is made to
/// those whose rights are set at the end. The result is what stopped it, which is reported; so is why an entry has no object, which is no
/// error, but for [`Stop::Memory`].
///
/// Proved: The calls of an entry are those of its object's list (`sn_import`), with the writes of a file's content between them, up to
/// one that stops it, or to where memory or the archive ends; an entry without an object has none. A directory that was made is kept. What is
/// reported is S_ISUID, what stopped the entry, or why it has no object.
pub fn make_entry<R: Read, C: Calls>(
    alloc: Global,
    archive: &mut R,
    untar: &mut Untar,
    to: &mut C,
    names: &Names<'_>,
    directory: &[u8],
    place: u64,
    member: &Member,
    directories: &mut Vec<Object>,
) -> Result<(), Stop>
    requires { AwaitsKind member.now.kind (state_of untar.old) member.now.size }
    ensures { (came : List ℕ) × Came (state_of untar.old) (R.remaining archive.old) came (state_of untar.new) (R.remaining archive.new) (stop_of result)
        × Adds (C.did to.old) (C.did to.new) (λ acts. (own : List Made) × (directories.new.items ≡ directories.old.items ++ own)
        × IsDone names.now directory.now place (longer (begun member.now false) came) acts own (stop_of result)) }
{
    match object_of(alloc, names, directory, member) {
        Ok(object) => make_object(
            alloc,
            archive,
            untar,
            to,
            place,
            member,
            object,
            directories,
        ),
        Err(fault) => refuse(to, place, member, fault),
    }
}
