//! Owner, group and rights of an entry.
ghost use Rattle.std.specs.Prelude.{◌≡◌, ◌%◌, IfOk, None};
ghost use Rattle.std.specs.Option.{option_copied, option_map};
ghost use Rattle.std.specs.Vec.{vec_items};
ghost use Rattle.sn_acl.specs.Modes.{three_entries};
ghost use Rattle.sn_model.specs.Tests.{mode_from_bits};
ghost use Rattle.sn_import_entry.specs.Entries as entries;

use crate::acls::acl_of;
use crate::fault::EntryFault;
use crate::names::Names;
use sn_acl::{Acl, Mode};
use sn_import::Rights;
use sn_model::StoredAcl;
use sn_untar::Member;
use std::alloc::{AllocError, Global};
use std::marker::Model;

const SET_GID: u64 = 0o2000;

const STICKY: u64 = 0o1000;

/// The rights of an entry, before memory is taken for its ACLs. Seen as what is kept of them.
#[derive(Drop)]
pub struct Wanted {
    user: u32,
    group: u32,
    set_gid: bool,
    sticky: bool,
    access: Acl,
    default: Option<Acl>,
}

impl Model for Wanted {
    ghost use Rattle.sn_import.specs.declared.object.Rights.{Rights};

    ghost Value = { Rights };

    ghost view = { λ w. record { user = w.user; group = w.group; set_gid = w.set_gid; sticky = w.sticky; access = w.access; default = w.default } };
}

fn owner(number: u64) -> Result<u32, EntryFault>
    ensures { result ≡ entries.owner number }
{
    match u32::try_from(number) {
        Ok(number) => Ok(number),
        Err(_) => Err(EntryFault::Owner),
    }
}

fn has_bit(mode: u64, bit: u64) -> bool
    ensures { result ≡ entries.has_bit mode bit }
{
    mode & bit != 0
}

// The permission bits of a mode.
fn permissions(mode: u64) -> Mode
    ensures { result ≡ mode_from_bits (mode % 512) }
{
    Mode::from_bits((mode % 512) as u16).unwrap()
}

// Its access ACL: that of a text, else the three entries of its mode.
fn access(names: &Names<'_>, mode: u64, text: &Option<Vec<u8>>) -> Result<Acl, EntryFault>
    ensures { result ≡ entries.access names.now mode (option_map vec_items text.now) }
{
    match text {
        Some(text) => acl_of(names, text.as_slice()),
        None => Ok(Acl::from_mode(permissions(mode))),
    }
}

// The default ACL of a directory.
fn default(names: &Names<'_>, text: &Option<Vec<u8>>) -> Result<Option<Acl>, EntryFault>
    ensures { result ≡ entries.default names.now (option_map vec_items text.now) }
{
    match text {
        Some(text) => Ok(Some(acl_of(names, text.as_slice())?)),
        None => Ok(None),
    }
}

// The rights of an entry, with the text of its default ACL.
fn rights(
    names: &Names<'_>,
    member: &Member,
    default_text: &Option<Vec<u8>>,
) -> Result<Wanted, EntryFault>
    ensures { result ≡ entries.rights names.now member.now (option_map vec_items default_text.now) }
{
    let user = owner(member.user)?;
    let group = owner(member.group)?;
    let access = access(names, member.mode, &member.access_acl)?;
    let default = default(names, default_text)?;
    Ok(Wanted {
        user,
        group,
        set_gid: has_bit(member.mode, SET_GID),
        sticky: has_bit(member.mode, STICKY),
        access,
        default,
    })
}

/// The rights of a file, which has no default ACL.
pub fn file_rights(names: &Names<'_>, member: &Member) -> Result<Wanted, EntryFault>
    ensures { result ≡ entries.rights names.now member.now None }
{
    rights(names, member, &None)
}

/// The rights of a directory.
pub fn directory_rights(names: &Names<'_>, member: &Member) -> Result<Wanted, EntryFault>
    ensures { result ≡ entries.directory_rights names.now member.now }
{
    rights(names, member, &member.default_acl)
}

impl Wanted {
    /// Takes memory for the ACLs.
    pub fn keep(self, alloc: Global) -> Result<Rights, AllocError>
        ensures { IfOk result (λ kept. kept ≡ self) }
    {
        Ok(Rights {
            user: self.user,
            group: self.group,
            set_gid: self.set_gid,
            sticky: self.sticky,
            access: StoredAcl::new(alloc, &self.access)?,
            default: StoredAcl::of_option(alloc, self.default.as_ref())?,
        })
    }
}
