//! What an entry makes.
ghost use Rattle.std.specs.Prelude.{◌≡◌};
ghost use Rattle.sn_import_entry.specs.Forms as forms;

use crate::fault::EntryFault;
use sn_limits::Limits;
use sn_tar::Kind;
use sn_untar::Member;

/// What an entry makes, if it can be made.
#[derive(Clone, Copy, PartialEq, Eq)]
pub enum Form {
    File,
    Directory,
    HardLink,
}

const SET_UID: u64 = 0o4000;

fn fault_of(letter: u8) -> EntryFault
    ensures { result ≡ forms.fault_of letter }
{
    match letter {
        b'2' => EntryFault::SymbolicLink,
        b'3' | b'4' => EntryFault::Device,
        b'6' => EntryFault::Pipe,
        b'S' => EntryFault::Sparse,
        _ => EntryFault::Kind,
    }
}

fn file_form(size: u64) -> Result<Form, EntryFault>
    ensures { result ≡ forms.file_form size }
{
    if size > Limits::WRITTEN.largest_file {
        Err(EntryFault::TooLarge)
    } else {
        Ok(Form::File)
    }
}

fn kind_form(kind: Kind, size: u64) -> Result<Form, EntryFault>
    ensures { result ≡ forms.kind_form kind size }
{
    match kind {
        Kind::File => file_form(size),
        Kind::HardLink => Ok(Form::HardLink),
        Kind::Directory => Ok(Form::Directory),
        Kind::Other(letter) => Err(fault_of(letter)),
        Kind::PaxHead | Kind::GlobalPaxHead | Kind::LongName | Kind::LongLink => {
            Err(EntryFault::Kind)
        }
    }
}

/// What an entry makes.
pub fn form_of(member: &Member) -> Result<Form, EntryFault>
    ensures { result ≡ forms.form_of member.now }
{
    if member.is_sparse {
        return Err(EntryFault::Sparse);
    }
    kind_form(member.kind, member.size)
}

/// Whether an entry has S_ISUID, which no object of an image has.
///
/// Proved: S_ISUID is told of exactly the files and directories whose mode has it.
pub fn has_set_uid(member: &Member) -> bool
    ensures { result ≡ forms.has_set_uid member.now }
{
    matches!(member.kind, Kind::File | Kind::Directory) && member.mode & SET_UID != 0
}
