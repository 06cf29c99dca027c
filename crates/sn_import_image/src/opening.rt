//! The calls before the first entry.
ghost use Rattle.std.specs.Prelude.{◌≡◌, ◌∷◌, []};
ghost use Rattle.sn_import_image.specs.Opening as opening;
ghost use Rattle.sn_import_image.specs.Opening.{IsOpened};
ghost use Rattle.sn_import_calls.specs.Acts.{Called};
ghost use Rattle.sn_import_calls.specs.Carried.{Adds, Grows};
ghost use Rattle.sn_model.specs.declared.reply.Reply.{Reply as Told};

use crate::fault::ImportFault;
use sn_core::{Call, Groups, Reply, Word};
use sn_import_run::Calls;
use sn_limits::Kind;
use sn_model::Access;
use std::alloc::Global;

const TO_WRITE: Access = Access {
    read: false,
    write: true,
    execute: false,
};

fn judge(reply: &Reply) -> Result<(), ImportFault>
    ensures { result ≡ opening.judged reply.now }
{
    match reply {
        Reply::Done => Ok(()),
        Reply::Status(status) => match status.kind {
            Kind::Directory => Ok(()),
            Kind::File => Err(ImportFault::Path),
        },
        Reply::Refused(refusal) => Err(ImportFault::of_refusal(refusal.errno)),
        _ => Err(ImportFault::Stopped),
    }
}

fn ask<C: Calls>(to: &mut C, call: &Call) -> Result<(), ImportFault>
    ensures { (reply : Told) × Grows (C.did to.old) (C.did to.new) (Called call.now reply ∷ []) × (result ≡ opening.judged reply) }
{
    judge(&to.call(call))
}

fn log_in<C: Calls>(alloc: Global, to: &mut C) -> Result<(), ImportFault>
    ensures { Adds (C.did to.old) (C.did to.new) (λ acts. IsOpened (opening.login ∷ []) acts result) }
{
    let login = Call::Login {
        uid: 0,
        gid: 0,
        groups: Groups::new(alloc, &[])?,
    };
    ask(to, &login)
}

// Whether the live tree has what the path leads to.
fn ask_to_write<C: Calls>(alloc: Global, to: &mut C, path: &[u8]) -> Result<(), ImportFault>
    ensures { Adds (C.did to.old) (C.did to.new) (λ acts. IsOpened (opening.access path.now ∷ []) acts result) }
{
    let access = Call::Access {
        path: Word::new(alloc, path)?,
        want: TO_WRITE,
    };
    ask(to, &access)
}

// Whether it is a directory.
fn look<C: Calls>(alloc: Global, to: &mut C, path: &[u8]) -> Result<(), ImportFault>
    ensures { Adds (C.did to.old) (C.did to.new) (λ acts. IsOpened (opening.stat path.now ∷ []) acts result) }
{
    let stat = Call::Stat {
        path: Word::new(alloc, path)?,
    };
    ask(to, &stat)
}

/// Opens session 0, as user 0, and finds whether a path leads to a directory of the live tree: `Path` where it doesn't, `Memory` where
/// memory is refused, and `Stopped` where the device fails. Nothing has changed.
pub(crate) fn open<C: Calls>(alloc: Global, to: &mut C, path: &[u8]) -> Result<(), ImportFault>
    ensures { Adds (C.did to.old) (C.did to.new) (λ acts. IsOpened (opening.first_calls path.now) acts result) }
{
    log_in(alloc, to)?;
    ask_to_write(alloc, to, path)?;
    look(alloc, to, path)
}
