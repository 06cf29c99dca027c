//! What a reply lets an entry do.
ghost use Rattle.std.specs.Prelude.{◌≡◌};
ghost use Rattle.sn_import_calls.specs.Answers as answers;

use crate::stop::Stop;
use sn_import::{What, is_expected};
use sn_limits::Kind;
use sn_model::{Call, Errno, Reply};

fn descriptor(number: u64) -> Result<u32, Stop>
    ensures { result ≡ answers.descriptor number }
{
    match u32::try_from(number) {
        Ok(fd) => Ok(fd),
        Err(_) => Err(Stop::Refused(Errno::Estopped)),
    }
}

fn opened(reply: &Reply) -> Result<u32, Stop>
    ensures { result ≡ answers.opened reply.now }
{
    match reply {
        Reply::Number(number) => descriptor(*number),
        _ => Err(Stop::Refused(Errno::Estopped)),
    }
}

fn looked(reply: &Reply) -> Result<u32, Stop>
    ensures { result ≡ answers.looked reply.now }
{
    match reply {
        Reply::Status(status) => match status.kind {
            Kind::File => Ok(0),
            Kind::Directory => Err(Stop::Refused(Errno::Eperm)),
        },
        _ => Err(Stop::Refused(Errno::Estopped)),
    }
}

// What a reply gives that is no refusal.
fn given(call: &Call, reply: &Reply) -> Result<u32, Stop>
    ensures { result ≡ answers.given call.now reply.now }
{
    match call {
        Call::Open { .. } => opened(reply),
        Call::Stat { .. } => looked(reply),
        _ => Ok(0),
    }
}

/// What the reply to a call of an entry gives: the descriptor of a file that was opened, or 0. Or it stops the entry.
pub fn answer(what: &What, call: &Call, reply: &Reply) -> Result<u32, Stop>
    ensures { result ≡ answers.answer what.now call.now reply.now }
{
    match reply {
        Reply::Refused(refusal) => {
            if is_expected(what, call, refusal.errno) {
                Ok(0)
            } else {
                Err(Stop::Refused(refusal.errno))
            }
        }
        _ => given(call, reply),
    }
}
