//! The laws that the definitions of `specs/` keep.
ghost use Rattle.sn_root.specs.Laws.{FindingIsOne, LogKeepsGates, LogKeepsClosed, LogKeepsBodies};

/// A disk has one newest root or one fault.
pub fn finding_is_one()
    ensures { FindingIsOne }
{}

/// What holds between the parts of replacing a root still holds after calls are logged.
///
/// Proved: Calls of the log between the parts keep what the parts need.
pub fn log_keeps_slots()
    ensures gates { LogKeepsGates }
    ensures closed { LogKeepsClosed }
    ensures bodies { LogKeepsBodies }
{}
