ghost use Rattle.std.specs.Prelude.{codes, Some};

use std::error::Error;
use std::fmt;

/// The device has failed, or has ended.
#[derive(Clone, Copy, Debug, PartialEq, Eq)]
pub struct Fault;

impl fmt::Display for Fault {
    ghost output = { λ _. Some (codes "the device failed") };

    fn fmt<W: fmt::Write>(&self, f: &mut fmt::Formatter<W>) -> fmt::Result {
        write!(f, "the device failed")
    }
}

impl Error for Fault {}
