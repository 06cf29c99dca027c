//! What is read, in the words of a grammar. The function does nothing: its clauses are the law.
ghost use Rattle.std.specs.Prelude.{◌≡◌, ◌≤◌, ℕ, Bool, List, Ok, length};
ghost use Rattle.sn_caller_groups.specs.Status.{AreShown, Lists, groups_of};

/// A text is read as groups exactly where it lists them, there are no more than 32, and each is shown.
///
/// Proved: A text is read as groups exactly where it consists of whole lines, the words of the only line `Groups:` are their numbers,
/// there are no more than 32, and none is 65534 unless all groups are mapped.
pub fn listed_groups_are_read()
    ensures listed { (all_mapped : Bool) (text groups : List ℕ) → groups_of all_mapped text ≡ Ok groups → Lists text groups × (length groups ≤ 32) × AreShown all_mapped groups }
    ensures read { (all_mapped : Bool) (text groups : List ℕ) → Lists text groups → length groups ≤ 32 → AreShown all_mapped groups → groups_of all_mapped text ≡ Ok groups }
{}
