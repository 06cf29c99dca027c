ghost use Rattle.std.specs.Prelude.{◌≡◌};
ghost use Rattle.sn_walk.specs.declared.fault.Failure.TheVariants.{Refused};

use std::error::Error;
use std::fmt;

/// What is wrong in a word that was to be a path.
#[derive(Clone, Copy, Debug, PartialEq, Eq, Hash)]
pub enum PathFault {
    /// It is empty, relative, or one of its names is misspelt.
    Misspelt,
    /// It or one of its names has too many bytes.
    TooLong,
}

impl fmt::Display for PathFault {
    fn fmt<W: fmt::Write>(&self, f: &mut fmt::Formatter<W>) -> fmt::Result {
        f.write_str(match self {
            PathFault::Misspelt => "misspelt path",
            PathFault::TooLong => "path or name too long",
        })
    }
}

impl Error for PathFault {}

/// Why a call has no answer: a test refuses it, or a fault, as of a device or of memory, kept the
/// test from being made.
#[derive(Drop)]
pub enum Failure<R, F> {
    Refused(R),
    Fault(F),
}

impl<R, F> From<R> for Failure<R, F> {
    ghost from_gives = { λ refusal e. e ≡ Refused refusal };

    fn from(refusal: R) -> Failure<R, F> {
        Failure::Refused(refusal)
    }
}
