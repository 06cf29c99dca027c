//! The outcomes of most calls: no change of a tree, or one and nothing else.
ghost use Rattle.std.specs.Prelude.{◌≡◌};
ghost use Rattle.sn_model.specs.Outcomes.{asks, does, points};

use sn_model::{AskedPoint, Caller, Change, Outcome, Pending, Reply};

/// The outcome of a call that changes no tree: what becomes of its caller, and its answer.
///
/// Proved, also of `does`: The outcome of a call that changes no tree, or makes one change and nothing else, is the model's
/// outcome.
pub fn asks(caller: Caller, told: Reply) -> Outcome<'static>
    ensures { result ≡ asks caller told }
{
    Outcome {
        charge: 0,
        change: Pending::Nothing,
        caller,
        told,
        point: AskedPoint::Unasked,
    }
}

/// A change of the live tree at a charge, and nothing else.
pub fn does(charge: u64, change: Change<'_>) -> Outcome<'_>
    ensures { result ≡ does charge change.entry }
{
    Outcome {
        charge,
        change: Pending::Does(change),
        caller: Caller::Stays,
        told: Reply::Done,
        point: AskedPoint::Unasked,
    }
}

/// The outcome of a call that asks for a whole consistency point, and changes nothing else.
pub fn points(asked: AskedPoint) -> Outcome<'static>
    ensures { result ≡ points asked }
{
    Outcome {
        charge: 0,
        change: Pending::Nothing,
        caller: Caller::Stays,
        told: Reply::Done,
        point: asked,
    }
}
