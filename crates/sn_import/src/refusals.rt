//! What a refused call leads to.
ghost use Rattle.std.specs.Prelude.{◌≡◌};
ghost use Rattle.sn_import.specs.Refused as refusals;

use crate::object::What;
use sn_model::{Call, Errno};

fn is_vacant(what: &What, errno: Errno) -> bool
    ensures { result ≡ refusals.is_vacant what.now errno }
{
    match errno {
        Errno::Enoent => true,
        Errno::Eperm => matches!(what, What::Directory(_)),
        _ => false,
    }
}

/// Whether an entry continues after its call was refused so.
///
/// Proved: It continues where nothing has the name that a file had to give up, where a directory has the name of a directory, and
/// where a directory that is made is there already; and in no other case.
pub fn is_expected(what: &What, call: &Call, errno: Errno) -> bool
    ensures { result ≡ refusals.is_expected what.now call.now errno }
{
    match call {
        Call::Unlink { .. } => is_vacant(what, errno),
        Call::Mkdir { .. } => errno == Errno::Eexist,
        _ => false,
    }
}

/// Whether nothing more is made after such a refusal.
///
/// Proved: An import ends at `EIO`, `ESTOPPED`, `ENOMEM` and `ENOSPC`, and at no other refusal.
pub fn ends(errno: Errno) -> bool
    ensures { result ≡ refusals.ends errno }
{
    matches!(
        errno,
        Errno::Eio | Errno::Estopped | Errno::Enomem | Errno::Enospc
    )
}
