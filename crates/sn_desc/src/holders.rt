ghost use Rattle.std.specs.Prelude.{◌≡◌, ℕ, ◌+◌, ◌<◌, ◌≤◌, length, slice_index, Some, if◌then◌else◌};
ghost use Rattle.sn_desc.specs.Holders.{has_live, one};

use crate::open_file::OpenFile;
use sn_walk::Home;

/// 1 for a file of the live tree, else 0.
pub(crate) fn live(file: &OpenFile) -> u16
    ensures { result ≡ (if has_live (Some file.now) then 1 else 0) }
{
    match file.home {
        Home::Live => 1,
        Home::Frozen(_) => 0,
    }
}

/// One more descriptor has a file.
pub(crate) fn add(holders: &mut [u16], file: &OpenFile)
    requires numbers { length holders.old ≡ 65536 }
    requires fits { slice_index holders.old file.now.number < 65535 }
    ensures { (number : ℕ) → slice_index holders.new number ≡ slice_index holders.old number + one number (Some file.now) }
{
    if let Home::Live = file.home {
        holders[file.number as usize] += 1;
    }
}

/// One descriptor fewer has a file.
pub(crate) fn remove(holders: &mut [u16], file: &OpenFile)
    requires numbers { length holders.old ≡ 65536 }
    requires some { file.now.number < 65536 → one file.now.number (Some file.now) ≤ slice_index holders.old file.now.number }
    ensures { (number : ℕ) → slice_index holders.new number + one number (Some file.now) ≡ slice_index holders.old number }
{
    if let Home::Live = file.home {
        holders[file.number as usize] -= 1;
    }
}
