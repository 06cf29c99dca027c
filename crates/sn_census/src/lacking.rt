//! Numbers that have a name too few.
ghost use Rattle.std.specs.Prelude.{◌≡◌, ◌≢◌, ◌<◌, ℕ, IfNone, IfSome};
ghost use Rattle.sn_census.specs.Rows.{row_at};

use crate::table::Census;

/// The first number that doesn't have as many names as it is to have.
pub(crate) fn first_lacking(census: &Census) -> Option<u16>
    ensures none { IfNone result ((number : ℕ) → number < 65536 → (row_at census.now number).names ≡ (row_at census.now number).links) }
    ensures some { IfSome result (λ number. (row_at census.now number).names ≢ (row_at census.now number).links) }
{
    for number in 0..census.used() {
        let row = census.row(number as u16);
        if row.names != row.links {
            return Some(number as u16);
        }
    }
    None
}
