//! The entries of an archive, one after the other.
ghost use Rattle.std.specs.Prelude.{◌≡◌, ◌++◌, ◌<◌, ◌-◌, ◌^◌, ℕ, List, [], IfErr, OnOk, Option, true};
ghost use Rattle.sn_import.specs.declared.object.Object.{Object as Made};
ghost use Rattle.sn_untar.specs.Steps.{state_of};
ghost use Rattle.sn_import_calls.specs.Carried.{Adds, Grows, stop_of};
ghost use Rattle.sn_import_files.specs.Entries.{IsTaken};
ghost use Rattle.sn_import_files.specs.Files.{AwaitsTold, Came};
ghost use Rattle.sn_import_run.specs.Imports as imports;
ghost use Rattle.sn_import_run.specs.Imports.{AreRead, IsImport, IsPassed};
ghost use Rattle.sn_import_calls.specs.declared.stop.Stop.{Stop as Ending};
ghost use Rattle.sn_import_calls.specs.declared.stop.Stop.TheVariants.{Ended as no_bytes};
ghost use Rattle.sn_import_files.specs.Streams.{IsReadTo, Part};

use crate::rights::set_rights;
use sn_import::Object;
use sn_import_calls::{Calls, Stop, Why};
use sn_import_entry::Names;
use sn_import_files::{make_entry, next_told, report};
use sn_tar::BLOCK_SIZE;
use sn_untar::{Told, Untar};
use std::alloc::Global;
use std::io;
use std::io::{ErrorKind, Read};

// More blocks than any input has.
const BLOCKS_MAX: u64 = u64::MAX - 1;

// Makes the entry of a head, after so many entries.
fn take<R: Read, C: Calls>(
    alloc: Global,
    archive: &mut R,
    untar: &mut Untar,
    to: &mut C,
    names: &Names<'_>,
    directory: &[u8],
    told: &Told,
    count: &mut u64,
    directories: &mut Vec<Object>,
) -> Result<(), Stop>
    requires few { count.old < 2 ^ 64 - 1 }
    requires awaits { AwaitsTold told.now (state_of untar.old) }
    ensures { (came : List ℕ) × Came (state_of untar.old) (R.remaining archive.old) came (state_of untar.new) (R.remaining archive.new) (stop_of result)
        × Adds (C.did to.old) (C.did to.new) (λ acts. (own : List Made) × (directories.new.items ≡ directories.old.items ++ own)
        × IsTaken names.now directory.now count.old told.now came acts own (stop_of result) count.new) }
{
    match told {
        Told::Entry(member) => {
            *count += 1;
            make_entry(
                alloc,
                archive,
                untar,
                to,
                names,
                directory,
                *count,
                member,
                directories,
            )
        }
        Told::Cut(member) => {
            *count += 1;
            report(to, *count, member, Why::TooLong);
            Ok(())
        }
        _ => Ok(()),
    }
}

// The same. An error ends the reading.
fn take_on<R: Read, C: Calls>(
    alloc: Global,
    archive: &mut R,
    untar: &mut Untar,
    to: &mut C,
    names: &Names<'_>,
    directory: &[u8],
    told: &Told,
    count: &mut u64,
    directories: &mut Vec<Object>,
) -> Result<(), Stop>
    requires few { count.old < 2 ^ 64 - 1 }
    requires awaits { AwaitsTold told.now (state_of untar.old) }
    ensures { (stop : Option Ending) × (came : List ℕ) × IsPassed result stop
        × Came (state_of untar.old) (R.remaining archive.old) came (state_of untar.new) (R.remaining archive.new) stop
        × Adds (C.did to.old) (C.did to.new) (λ acts. (own : List Made) × (directories.new.items ≡ directories.old.items ++ own)
        × IsTaken names.now directory.now count.old told.now came acts own stop count.new) }
{
    let outcome = take(
        alloc,
        archive,
        untar,
        to,
        names,
        directory,
        told,
        count,
        directories,
    );
    if_ends(outcome)
}

// Only what ends the reading stays an error.
fn if_ends(outcome: Result<(), Stop>) -> Result<(), Stop>
    ensures { IsPassed result (stop_of outcome) }
{
    let Err(stop) = outcome else {
        return Ok(());
    };
    if stop.ends_reading() {
        Err(stop)
    } else {
        Ok(())
    }
}

#[tactic(auto, using(sn_import_calls::proofs::Made::adds_none))]
// Ends the reading after so many entries: an input without a byte is an archive of none.
fn end<C: Calls>(to: &mut C, count: u64, is_empty: bool, stop: Stop) -> Result<(), Stop>
    requires { count < 2 ^ 64 - 1 }
    ensures told { Grows (C.did to.old) (C.did to.new) (imports.end_told count (stop_of result)) }
    ensures whole { OnOk result ((is_empty ≡ true) × (stop ≡ no_bytes)) }
    ensures same { IfErr result (λ other. other ≡ stop) }
{
    if is_empty && matches!(stop, Stop::Ended) {
        return Ok(());
    }
    to.report(Some(count + 1), &[], Why::Stop(stop));
    Err(stop)
}

#[tactic(none)]
// Makes the entries of an archive, and keeps directories until the end.
fn make_entries<R: Read, C: Calls>(
    alloc: Global,
    archive: &mut R,
    to: &mut C,
    names: &Names<'_>,
    directory: &[u8],
    directories: &mut Vec<Object>,
) -> Result<(), Stop>
    requires { directories.old.items ≡ [] }
    ensures { (parts : List Part) × IsReadTo (R.remaining archive.old) parts (stop_of result)
        × Adds (C.did to.old) (C.did to.new) (λ acts. AreRead names.now directory.now parts acts directories.new.items (stop_of result)) }
{
    let mut untar = Untar::new(alloc);
    let mut block = [0; BLOCK_SIZE];
    let mut count = 0;
    let mut is_empty = true;
    for _turn in 0..BLOCKS_MAX {
        let told = match next_told(alloc, archive, &mut untar, &mut block) {
            Ok(told) => told,
            Err(stop) => return end(to, count, is_empty, stop),
        };
        is_empty = false;
        take_on(
            alloc,
            archive,
            &mut untar,
            to,
            names,
            directory,
            &told,
            &mut count,
            directories,
        )?;
        if untar.is_whole() {
            return Ok(());
        }
    }
    let error = io::Error::from(ErrorKind::TimedOut);
    end(to, count, false, Stop::Unread(error))
}

// Whether nothing more is made.
fn is_over(outcome: &Result<(), Stop>) -> bool
    ensures { result ≡ imports.is_over (stop_of outcome.now) }
{
    match outcome {
        Ok(()) => false,
        Err(stop) => stop.ends_import(),
    }
}

#[tactic(none)]
/// Makes what an archive holds below a directory, whose path has no slash at its end but the root's. Session 0 has to be open, as user 0's. What
/// isn't made is reported.
///
/// Proved: The calls are those of the entries in their order, of each as its list has them (`sn_import`), up to one that is refused and isn't
/// expected, or to where memory or the archive ends. Then the directories that were made get their rights, the deepest first, unless a
/// refusal with `EIO`, `ESTOPPED`, `ENOMEM` or `ENOSPC`, or a want of memory, ended the import: no call follows it.
/// Proved: The writes of a file have its content, with the descriptor that its `open` was answered; the content of an entry that isn't made
/// isn't read as anything else. What is reported is each entry that isn't made, or not to its end, with the reason, and S_ISUID.
/// Proved: The entries are those that a reader (`sn_untar`) finds in the blocks of the input, up to the archive's end, or to where an input
/// without a byte begins. Else the damage, or the end of the input, is reported, and is there before the archive's end; or memory was
/// refused, or a read failed.
pub fn import<R: Read, C: Calls>(
    alloc: Global,
    names: &Names<'_>,
    directory: &[u8],
    archive: &mut R,
    to: &mut C,
)
    ensures { (parts : List Part) × (stop : Option Ending) × IsReadTo (R.remaining archive.old) parts stop
        × Adds (C.did to.old) (C.did to.new) (IsImport names.now directory.now parts stop) }
{
    let mut directories = Vec::new(alloc);
    let outcome = make_entries(alloc, archive, to, names, directory, &mut directories);
    if is_over(&outcome) {
        return;
    }
    set_rights(alloc, to, directories);
}
