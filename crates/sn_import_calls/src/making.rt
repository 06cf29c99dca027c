//! The calls of a list, one after the other.
ghost use Rattle.std.specs.Prelude.{◌≡◌, ◌++◌, ◌∷◌, [], IfErr, IfOk, true};
ghost use Rattle.sn_import.specs.Calls.{closing_from, opening_calls};
ghost use Rattle.sn_model.specs.declared.reply.Reply.{Reply};
ghost use Rattle.sn_import_calls.specs.Acts.{Called};
ghost use Rattle.sn_import_calls.specs.Answers as answers;
ghost use Rattle.sn_import_calls.specs.Carried.{Adds, Goes, Grows, last_descriptor};
ghost use Rattle.sn_import_calls.specs.Stops.{is_call};

use crate::answers::answer;
use crate::calls::Calls;
use crate::stop::Stop;
use sn_import::{Closing, Object, What};
use sn_model::Call;
use std::alloc::Global;

#[tactic(auto, using(crate::proofs::Made::answer_calls))]
/// Makes a call of an entry, and gives the descriptor of a file that it opened, or 0. [`Stop::Refused`] where the reply stops the entry, with
/// ESTOPPED for one that the call can't have.
///
/// Proved: A refusal stops an entry, unless it is expected (`sn_import`), and so does a link to what is no file.
pub fn make<C: Calls>(to: &mut C, what: &What, call: Call) -> Result<u32, Stop>
    ensures calls { IfErr result (λ stop. is_call stop ≡ true) }
    ensures made { (reply : Reply) × (Grows (C.did to.old) (C.did to.new) (Called call reply ∷ [])) × (result ≡ answers.answer what.now call reply) }
{
    let reply = to.call(&call);
    answer(what, &call, &reply)
}

/// Makes the calls of an object before its content, and gives the descriptor of a file that is opened, or 0 for what is no file. After the first
/// reply that stops the object, or where memory for a call is refused ([`Stop::Memory`]), no call follows.
///
/// Proved, also of `close`: The calls are those of the object's list (`sn_import`) in their order, all of them, or a front of them up to one
/// whose reply stops the object, or to where memory was refused.
pub fn open<C: Calls>(alloc: Global, to: &mut C, object: &Object) -> Result<u32, Stop>
    ensures calls { IfErr result (λ stop. is_call stop ≡ true) }
    ensures made { Adds (C.did to.old) (C.did to.new) (λ acts. Goes object.now.what (opening_calls object.now) [] acts result
        × IfOk result (λ fd. fd ≡ last_descriptor object.now.what acts)) }
{
    let mut fd = 0;
    let mut place = object.opening();
    while let Some((call, next)) = object.opening_call(alloc, place)? {
        fd = make(to, &object.what, call)?;
        place = next;
    }
    Ok(fd)
}

/// Makes the calls of an object after its content, from one on. After the first reply that stops the object, or where memory for a call is refused
/// ([`Stop::Memory`]), no call follows.
pub fn close<C: Calls>(
    alloc: Global,
    to: &mut C,
    object: &Object,
    from: Closing,
) -> Result<(), Stop>
    ensures calls { IfErr result (λ stop. is_call stop ≡ true) }
    ensures made { Adds (C.did to.old) (C.did to.new) (λ acts. Goes object.now.what (closing_from from object.now) [] acts result) }
{
    let mut place = from;
    while let Some((call, next)) = object.closing_call(alloc, place)? {
        make(to, &object.what, call)?;
        place = next;
    }
    Ok(())
}
