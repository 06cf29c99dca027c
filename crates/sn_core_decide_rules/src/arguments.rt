//! The tests of a call's arguments, which ask nothing of a tree.
ghost use Rattle.std.specs.Prelude.{◌≡◌};
ghost use Rattle.sn_model.specs.AccessCalls as calls;
ghost use Rattle.sn_model.specs.FileCalls as files;
ghost use Rattle.sn_model.specs.Tests as tests;
ghost use Rattle.sn_walk.specs.Gives.{Answers};

use sn_acl::{Acl, Mode};
use sn_model::{AclKind, Errno, ModeBits, NewAcl, OpenFlags, Refusal, Word};
use sn_walk::{Path, PathFault};

/// An argument that is a path: EINVAL where it is misspelt, ENAMETOOLONG where it or a name is too
/// long.
pub fn path_argument(word: &Word) -> Result<Path<'_>, Refusal>
    ensures { Answers (λ p. p) result (tests.path_argument word.now) }
{
    match Path::parse(word.as_bytes()) {
        Ok(path) => Ok(path),
        Err(PathFault::Misspelt) => Err(Refusal::plain(Errno::Einval)),
        Err(PathFault::TooLong) => Err(Refusal::plain(Errno::Enametoolong)),
    }
}

/// An argument that is the mode of a new object: EINVAL where it has other bits than the nine.
pub fn new_mode_argument(bits: u16) -> Result<Mode, Refusal>
    ensures { result ≡ tests.new_mode_argument bits }
{
    match Mode::from_bits(bits) {
        Some(mode) => Ok(mode),
        None => Err(Refusal::plain(Errno::Einval)),
    }
}

/// An argument that is the mode of an object: EINVAL where it has other bits than 03777.
pub fn mode_bits_argument(bits: u16) -> Result<ModeBits, Refusal>
    ensures { result ≡ calls.mode_bits_argument bits }
{
    if bits >= 2048 {
        return Err(Refusal::plain(Errno::Einval));
    }
    let mode = new_mode_argument(bits % 512)?;
    Ok(ModeBits {
        mode,
        set_gid: bits / 1024 == 1,
        sticky: bits / 512 % 2 == 1,
    })
}

/// An argument that is an ACL: EINVAL where it is no valid ACL's one spelling. A dash is no default
/// ACL, and EINVAL for an access ACL.
///
/// Proved, also of `full`, `writable_parent`, `granted`, `live`, `one_tree` and `sticky`: Each test is there once for all
/// calls, and is the model's.
pub fn acl_argument(kind: AclKind, word: &Word) -> Result<NewAcl, Refusal>
    ensures { result ≡ calls.acl_argument kind word.now }
{
    match kind {
        AclKind::Access => match Acl::parse(word.as_bytes()) {
            Some(acl) => Ok(NewAcl::Access(acl)),
            None => Err(Refusal::plain(Errno::Einval)),
        },
        AclKind::Default => default_acl_argument(word.as_bytes()),
    }
}

/// An argument that is the number of a user or a group, or none for the one that is there. Each number
/// of 32 bits is one.
pub fn id_argument(id: Option<u32>) -> Result<Option<u32>, Refusal>
    ensures { result ≡ calls.id_argument id }
{
    match id {
        Some(number) => Ok(Some(number)),
        None => Ok(None),
    }
}

/// An argument that is how to open a file: EINVAL where neither reading nor writing is asked for, where
/// what isn't written to is to be appended to or truncated, and where what isn't to be created is to be
/// exclusive.
pub fn flags_argument(flags: OpenFlags) -> Result<OpenFlags, Refusal>
    ensures { result ≡ files.flags_argument flags }
{
    let is_for_something = flags.read || flags.write;
    let writes = flags.write || !(flags.append || flags.truncate);
    let creates = flags.create || !flags.exclusive;
    if is_for_something && writes && creates {
        return Ok(flags);
    }
    Err(Refusal::plain(Errno::Einval))
}

/// An argument that is how many bytes to read: EINVAL over 65,536.
pub fn count_argument(count: u64) -> Result<u64, Refusal>
    ensures { result ≡ files.count_argument count }
{
    if count > 65_536 {
        return Err(Refusal::plain(Errno::Einval));
    }
    Ok(count)
}

/// An argument that is the bytes to write: EINVAL where they are more than 65,536.
pub fn bytes_argument(bytes: &[u8]) -> Result<&[u8], Refusal>
    ensures { Answers (λ b. b.now) result (files.bytes_argument bytes.now) }
{
    if bytes.len() > 65_536 {
        return Err(Refusal::plain(Errno::Einval));
    }
    Ok(bytes)
}

fn default_acl_argument(word: &[u8]) -> Result<NewAcl, Refusal>
    ensures { result ≡ calls.acl_argument AclKind.Default word.now }
{
    if let b"-" = word {
        return Ok(NewAcl::Default(None));
    }
    match Acl::parse(word) {
        Some(acl) => Ok(NewAcl::Default(Some(acl))),
        None => Err(Refusal::plain(Errno::Einval)),
    }
}
