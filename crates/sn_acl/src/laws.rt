//! Laws that a reader of acl(5) expects of the definitions. The functions do nothing: their clauses are the laws.
ghost use Rattle.std.specs.Prelude.{ℕ, ◌≡◌, ◌<◌, List, length};
ghost use Rattle.sn_acl.specs.declared.entries.Entry.{Entry};
ghost use Rattle.sn_acl.specs.declared.modes.Mode.{Mode};
ghost use Rattle.sn_acl.specs.AccessList.{IsValid};
ghost use Rattle.sn_acl.specs.Credential.{Credential};
ghost use Rattle.sn_acl.specs.Access.{class_of};
ghost use Rattle.sn_acl.specs.Laws.{IsOneClass, IsGrantedByMode, IsNarrowedByMask, HasDistinctTags, SetsThreeEntries, SpellingIsOne, TestIsExact};

/// A caller has one class and only one, which has an entry.
///
/// Proved: A caller has one class.
pub fn class_is_one()
    ensures one { (cred : Credential) (owner group : ℕ) (entries : List Entry) → IsValid entries → IsOneClass cred owner group entries }
    ensures filled { (cred : Credential) (owner group : ℕ) (entries : List Entry) → IsValid entries
        → 0 < length (class_of cred owner group entries).members }
{}

/// Without named entries, the mode's own bits decide for every caller but the user 0.
///
/// Proved: Without named entries the mode decides alone.
pub fn mode_decides()
    ensures { (cred : Credential) (owner group : ℕ) (mode : Mode) (want : ℕ) → (cred.uid ≡ 0 → ⊥)
        → IsGrantedByMode cred owner group mode want }
{}

/// The MASK never widens what is granted.
///
/// Proved: The MASK never widens.
pub fn mask_narrows()
    ensures { (cred : Credential) (owner group : ℕ) (entries : List Entry) (want : ℕ)
        → IsNarrowedByMask cred owner group entries want }
{}

/// No tag occurs twice in a valid ACL.
///
/// Proved, also of `test_is_exact`: No tag is twice in a valid ACL, and the test of an ACL passes exactly the valid ones.
pub fn tags_are_distinct()
    ensures { (entries : List Entry) → IsValid entries → HasDistinctTags entries }
{}

/// The test of an ACL passes exactly the valid ones.
pub fn test_is_exact()
    ensures { TestIsExact }
{}

/// Each valid ACL has one spelling, and a text that is no valid ACL's spells none.
pub fn spelling_is_one()
    ensures { SpellingIsOne }
{}

/// Where there is a MASK, setting a mode leaves GROUP_OBJ; without one it sets it. Entries with a qualifier stay.
///
/// Proved: To set a mode leaves GROUP_OBJ where there is a MASK.
pub fn mode_sets_three_entries()
    ensures { (mode : Mode) (entries : List Entry) → IsValid entries → SetsThreeEntries mode entries }
{}
