//! The way up from each directory.
ghost use Rattle.std.specs.Prelude.{◌≡◌, ◌+◌, ◌<◌, ℕ, false, Some, IsTrue, IfNone, IfSome};
ghost use Rattle.sn_limits.specs.declared.kind.Kind.TheVariants.{Directory};
ghost use Rattle.sn_census.specs.Climbs.{AreClimbed, LeadsUp, AreUnclimbed, KeepsRows, parents_of};
ghost use Rattle.sn_census.specs.Rows.{row_at};

use crate::table::{Census, ROOT, Row};

// Goes up from a directory until a number comes that was gone through before, and answers whether that was
// on the way from another directory, which led to the root. Else the way has come back to itself.
fn climb(census: &mut Census, directory: u16) -> bool
    requires { 2 < directory }
    ensures climbed { (parents : ℕ → ℕ) → AreClimbed parents directory census.old → IsTrue result → AreClimbed parents (directory + 1) census.new }
    ensures up { (parents : ℕ → ℕ) → AreClimbed parents directory census.old → IsTrue result → LeadsUp parents directory }
    ensures apart { (parents : ℕ → ℕ) → AreClimbed parents directory census.old → result ≡ false → LeadsUp parents directory → ⊥ }
    ensures kept { KeepsRows census.old census.new }
{
    let mut at = directory;
    'steps: while census.row(at).climb == 0 {
        let row = census.row(at);
        census.set_row(
            at,
            Row {
                climb: directory,
                ..row
            },
        );
        at = row.parent;
    }
    census.row(at).climb != directory
}

// Says that the way up ends at the root directory.
fn begin(census: &mut Census)
    ensures climbed { AreUnclimbed census.old → AreClimbed (parents_of census.old) 3 census.new }
    ensures kept { KeepsRows census.old census.new }
{
    let row = census.row(ROOT);
    census.set_row(ROOT, Row { climb: ROOT, ..row });
}

// Whether a way leads up to the root, if the number is a directory's.
fn leads_up(census: &mut Census, number: u16) -> bool
    requires { 2 < number }
    ensures climbed { (parents : ℕ → ℕ) → AreClimbed parents number census.old → IsTrue result → AreClimbed parents (number + 1) census.new }
    ensures up { (parents : ℕ → ℕ) → AreClimbed parents number census.old → (row_at census.old number).kind ≡ Some Directory → IsTrue result → LeadsUp parents number }
    ensures apart { (parents : ℕ → ℕ) → AreClimbed parents number census.old → result ≡ false → LeadsUp parents number → ⊥ }
    ensures directory { result ≡ false → (row_at census.old number).kind ≡ Some Directory }
    ensures kept { KeepsRows census.old census.new }
{
    if !census.row(number).is_directory() {
        return true;
    }
    climb(census, number)
}

/// The first directory from which no way leads up to the root. No way was gone before.
pub(crate) fn first_apart(census: &mut Census) -> Option<u16>
    ensures none { AreUnclimbed census.old → IfNone result ((directory : ℕ) → 2 < directory → directory < 65536
        → (row_at census.old directory).kind ≡ Some Directory → LeadsUp (parents_of census.old) directory) }
    ensures some { AreUnclimbed census.old → IfSome result (λ directory. LeadsUp (parents_of census.old) directory → ⊥) }
    ensures directory { IfSome result (λ directory. (row_at census.old directory).kind ≡ Some Directory) }
    ensures kept { KeepsRows census.old census.new }
{
    begin(census);
    for number in 3..census.used() {
        if !leads_up(census, number as u16) {
            return Some(number as u16);
        }
    }
    None
}
