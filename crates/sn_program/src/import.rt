//! Archives into a directory of an image.
ghost use Rattle.std.specs.Prelude.{◌≡◌, ◌≢◌, ◌⊎◌, IfErr, IfOk, Ok};
ghost use Rattle.sn_import_image.specs.declared.fault.Made.TheVariants.{Whole as whole};
ghost use Rattle.sn_program.specs.Tasks.{IsImported};
ghost use Rattle.sn_program.specs.declared.ending.Ending.TheVariants as ended;
ghost use Rattle.sn_program.specs.declared.fault.ProgramFault.TheVariants as fault;

use crate::ending::{Came, Ending, failed};
use crate::fault::{ProgramFault, Which, on_file};
use sn_accounts::Accounts;
use sn_core::Device;
use sn_filedev::{FileDevice, LockFile};
use sn_import_entry::Names;
use sn_import_image::{ImportFault, Imported, Made, import_image};
use std::alloc::Global;
use std::fs::{Files, OpenFile};
use std::io::{BufReader, ErrorKind, Read, Write};
use std::os::unix::fs::FileExt;
use std::{fs, io};

/// Where the system keeps the names of users and of groups (passwd(5), group(5)).
const USERS: &str = "/etc/passwd";

const GROUPS: &str = "/etc/group";

/// How much of an archive is read at once: 64 KiB.
const READ_SIZE: usize = 65_536;

fn read_all<F: Read + Drop>(alloc: Global, file: F) -> io::Result<Vec<u8>> {
    let mut file = file;
    let mut bytes = Vec::new(alloc);
    file.read_to_end(&mut bytes)?;
    Ok(bytes)
}

/// What the file at a path has, and nothing where there is none.
fn text_at<F: FileExt + OpenFile + Read + Drop, R: Files<File = F> + AllocGlobal>(
    rt: &R,
    path: &str,
) -> io::Result<Vec<u8>> {
    match fs::open(rt, path) {
        Ok(file) => read_all(rt.alloc(), file),
        Err(error) => match error.kind() {
            ErrorKind::NotFound => Ok(Vec::new(rt.alloc())),
            _ => Err(error),
        },
    }
}

/// The texts of the two files that have the names of users and of groups.
#[derive(Drop)]
struct Texts {
    users: Vec<u8>,
    groups: Vec<u8>,
}

fn accounts<F: FileExt + OpenFile + Read + Drop, R: Files<File = F> + AllocGlobal>(
    rt: &R,
) -> Result<Texts, ProgramFault>
    ensures words { IfErr result (λ why. why ≢ fault.Usage) }
{
    let users = on_file(Which::Accounts, text_at(rt, USERS))?;
    let groups = on_file(Which::Accounts, text_at(rt, GROUPS))?;
    Ok(Texts { users, groups })
}

/// What came of an import.
fn ending_of(outcome: Result<Made, ImportFault>) -> Result<Ending, ProgramFault>
    ensures done { IfOk result IsImported }
    ensures whole { IfOk result (λ came. came ≡ ended.Done → outcome ≡ Ok whole) }
    ensures words { IfErr result (λ why. why ≢ fault.Usage) }
{
    match outcome {
        Ok(Made::Whole) => Ok(Ending::Done),
        Ok(Made::InPart) => Ok(Ending::InPart),
        Err(fault) => Err(ProgramFault::from(fault)),
    }
}

/// Makes what an archive holds below the directory at a path of what a device has, and reports what isn't made.
fn import_from<D: Device + Drop, I: Read, E: Write + Drop>(
    alloc: Global,
    device: D,
    names: &Names<'_>,
    path: &str,
    input: &mut I,
    err: E,
) -> Came<E>
    ensures done { IfOk result.done IsImported }
    ensures quiet { IfOk result.done (λ came. (came ≡ ended.InPart) ⊎ (result.err ≡ err)) }
    ensures words { IfErr result.done (λ why. why ≢ fault.Usage) }
{
    let buffered = BufReader::with_capacity(alloc, READ_SIZE, &mut *input);
    let mut archive = match on_file(Which::Input, buffered) {
        Ok(archive) => archive,
        Err(fault) => return failed(fault, err),
    };
    let path = path.as_bytes();
    let Imported {
        outcome,
        errors,
        ..
    } = import_image(alloc, device, names, path, &mut archive, err);
    Came {
        done: ending_of(outcome),
        err: errors,
    }
}

/// The names of users and groups that two texts have.
fn names_of<'a>(alloc: Global, users: &'a [u8], groups: &'a [u8]) -> Result<Names<'a>, ProgramFault>
    ensures words { IfErr result (λ why. why ≢ fault.Usage) }
{
    let users = Accounts::read(alloc, users)?;
    let groups = Accounts::read(alloc, groups)?;
    Ok(Names { users, groups })
}

/// Makes what an archive holds below the directory at a path of the image at another, where two texts have the names of users and groups.
/// The image is locked as long as that takes.
fn import_named<
    F: FileExt + OpenFile + LockFile + Read + Drop,
    R: Files<File = F> + AllocGlobal,
    I: Read,
    E: Write + Drop,
>(rt: &R, image: &str, path: &str, accounts: &Texts, input: &mut I, err: E) -> Came<E>
    ensures done { IfOk result.done IsImported }
    ensures quiet { IfOk result.done (λ came. (came ≡ ended.InPart) ⊎ (result.err ≡ err)) }
    ensures words { IfErr result.done (λ why. why ≢ fault.Usage) }
{
    let (users, groups) = (accounts.users.as_slice(), accounts.groups.as_slice());
    let names = match names_of(rt.alloc(), users, groups) {
        Ok(names) => names,
        Err(fault) => return failed(fault, err),
    };
    match on_file(Which::Image, FileDevice::open(rt.alloc(), rt, image)) {
        Ok(device) => import_from(rt.alloc(), device, &names, path, input, err),
        Err(fault) => failed(fault, err),
    }
}

/// Makes what an archive holds below the directory at a path of the image at another, with the names of the system.
pub(crate) fn import_on<
    F: FileExt + OpenFile + LockFile + Read + Drop,
    R: Files<File = F> + AllocGlobal,
    I: Read,
    E: Write + Drop,
>(rt: &R, image: &str, path: &str, input: &mut I, err: E) -> Came<E>
    ensures done { IfOk result.done IsImported }
    ensures quiet { IfOk result.done (λ came. (came ≡ ended.InPart) ⊎ (result.err ≡ err)) }
    ensures words { IfErr result.done (λ why. why ≢ fault.Usage) }
{
    match accounts(rt) {
        Ok(accounts) => import_named(rt, image, path, &accounts, input, err),
        Err(fault) => failed(fault, err),
    }
}
