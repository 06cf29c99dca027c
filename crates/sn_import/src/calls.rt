//! Single calls.
ghost use Rattle.std.specs.Prelude.{◌≡◌, ◌∷◌, [], IfOk, Some};
ghost use Rattle.sn_import.specs.Calls as calls;
ghost use Rattle.sn_model.specs.declared.call.Call.TheVariants as call;

use crate::object::Rights;
use sn_model::{AclKind, Call, OpenFlags, StoredAcl, Word};
use std::alloc::{AllocError, Global};

/// The mode of directories that no entry names.
const ABOVE_MODE: u16 = 0o755;

const DIRECTORY_MODE: u16 = 0o700;

const FILE_MODE: u16 = 0o600;

const SET_GID: u16 = 0o2000;

const STICKY: u16 = 0o1000;

pub fn make_above(alloc: Global, path: &[u8]) -> Result<Call, AllocError>
    ensures { IfOk result (λ made. made ≡ calls.making_above path.now) }
{
    let path = Word::new(alloc, path)?;
    Ok(Call::Mkdir {
        path,
        mode: ABOVE_MODE,
    })
}

pub fn make_directory(alloc: Global, path: &[u8]) -> Result<Call, AllocError>
    ensures { IfOk result (λ made. made ≡ call.Mkdir path.now 448) }
{
    let path = Word::new(alloc, path)?;
    Ok(Call::Mkdir {
        path,
        mode: DIRECTORY_MODE,
    })
}

pub fn make_file(alloc: Global, path: &[u8]) -> Result<Call, AllocError>
    ensures { IfOk result (λ made. made ≡ call.Open path.now calls.new_file 384) }
{
    let path = Word::new(alloc, path)?;
    let flags = OpenFlags {
        read: false,
        write: true,
        append: false,
        create: true,
        exclusive: true,
        truncate: false,
    };
    Ok(Call::Open {
        path,
        flags,
        mode: FILE_MODE,
    })
}

pub fn look_at(alloc: Global, path: &[u8]) -> Result<Call, AllocError>
    ensures { IfOk result (λ made. made ≡ call.Stat path.now) }
{
    let path = Word::new(alloc, path)?;
    Ok(Call::Stat { path })
}

pub fn clear(alloc: Global, path: &[u8]) -> Result<Call, AllocError>
    ensures { IfOk result (λ made. made ≡ call.Unlink path.now) }
{
    let path = Word::new(alloc, path)?;
    Ok(Call::Unlink { path })
}

pub fn link(alloc: Global, old: &[u8], new: &[u8]) -> Result<Call, AllocError>
    ensures { IfOk result (λ made. made ≡ call.Link old.now new.now) }
{
    let old = Word::new(alloc, old)?;
    let new = Word::new(alloc, new)?;
    Ok(Call::Link { old, new })
}

pub fn own(alloc: Global, path: &[u8], rights: &Rights) -> Result<Call, AllocError>
    ensures { IfOk result (λ made. made ≡ calls.owning path.now rights.now) }
{
    let path = Word::new(alloc, path)?;
    Ok(Call::Chown {
        path,
        uid: Some(rights.user),
        gid: Some(rights.group),
    })
}

fn acl_word(alloc: Global, acl: &StoredAcl) -> Result<Word, AllocError>
    ensures { IfOk result (λ word. word ≡ calls.default_text (Some acl.now)) }
{
    Word::new(alloc, acl.to_acl().print().as_str().as_bytes())
}

pub fn grant(alloc: Global, path: &[u8], rights: &Rights) -> Result<Call, AllocError>
    ensures { IfOk result (λ made. made ≡ calls.granting path.now rights.now) }
{
    let path = Word::new(alloc, path)?;
    let acl = acl_word(alloc, &rights.access)?;
    Ok(Call::SetAcl {
        path,
        kind: AclKind::Access,
        acl,
    })
}

fn default_word(alloc: Global, acl: &Option<StoredAcl>) -> Result<Word, AllocError>
    ensures { IfOk result (λ word. word ≡ calls.default_text acl.now) }
{
    match acl {
        Some(acl) => acl_word(alloc, acl),
        None => Word::new(alloc, b"-"),
    }
}

pub fn grant_new(alloc: Global, path: &[u8], rights: &Rights) -> Result<Call, AllocError>
    ensures { IfOk result (λ made. made ≡ calls.granting_new path.now rights.now) }
{
    let path = Word::new(alloc, path)?;
    let acl = default_word(alloc, &rights.default)?;
    Ok(Call::SetAcl {
        path,
        kind: AclKind::Default,
        acl,
    })
}

fn bit(is_set: bool, value: u16) -> u16
    ensures { result ≡ calls.bit is_set value }
{
    if is_set { value } else { 0 }
}

fn bits(rights: &Rights) -> u16
    ensures { result ≡ calls.bits_of rights.now }
{
    let shown = rights.access.to_acl().mode().bits();
    shown + bit(rights.set_gid, SET_GID) + bit(rights.sticky, STICKY)
}

pub fn mark(alloc: Global, path: &[u8], rights: &Rights) -> Result<Call, AllocError>
    ensures { IfOk result (λ made. made ≡ calls.marking path.now rights.now) }
{
    let path = Word::new(alloc, path)?;
    Ok(Call::Chmod {
        path,
        mode: bits(rights),
    })
}
