//! The order in which directories get their rights.
ghost use Rattle.std.specs.Prelude.{◌≡◌, OnOk, OnErr, count_by};
ghost use Rattle.std.specs.Ordering.{is_lt};
ghost use Rattle.sn_import.specs.Depths as depths;
ghost use Rattle.sn_import.specs.Depths.{AreDeepestFirst};

use crate::object::{Object, What};
use std::alloc::AllocError;
use std::cmp::Ordering;

fn slashes(path: &[u8]) -> usize
    ensures { result ≡ count_by depths.is_slash path.now }
{
    path.iter().filter(|byte| **byte == b'/').count()
}

impl Object {
    fn depth(&self) -> usize
        ensures { result ≡ depths.depth self.now }
    {
        match &self.what {
            What::Top(_) => 0,
            _ => slashes(self.path.as_bytes()),
        }
    }
}

fn compare(a: &Object, b: &Object) -> Ordering
    ensures { is_lt result ≡ depths.is_deeper a.now b.now }
{
    b.depth().cmp(&a.depth())
}

/// Puts directories in the order in which they get their rights. An error is a want of memory, and changes nothing.
///
/// Proved: Directories get their rights in the order of their depth, the deepest first, and of one depth in the order of their
/// entries; the directory that the archive goes into comes last.
pub fn order(directories: &mut Vec<Object>) -> Result<(), AllocError>
    ensures ok { OnOk result (AreDeepestFirst directories.old.items directories.new.items) }
    ensures err { OnErr result (directories.new.items ≡ directories.old.items) }
{
    directories.sort_by(|a, b| compare(a, b))?;
    Ok(())
}
