//! What follows from the definitions. The functions do nothing: their clauses are the laws.
ghost use Rattle.std.specs.Prelude.{ℕ, ◌≡◌, List};
ghost use Rattle.sn_acl.specs.AccessList.{IsValid};
ghost use Rattle.sn_acl.specs.declared.entries.Entry.{Entry};
ghost use Rattle.sn_acl_xattr.specs.Values.{IsValueOf, value_of};

/// What is written for an ACL is a value of it, so that it is read as that ACL.
///
/// Proved, also of `values_are_of_one_acl`: What is written for an ACL is a value of it, and no value is one of two ACLs.
pub fn written_values_are_read()
    ensures { (acl : List Entry) → IsValid acl → IsValueOf (value_of acl) acl }
{}

/// No value is that of two ACLs.
pub fn values_are_of_one_acl()
    ensures { (value : List ℕ) (a b : List Entry) → IsValid a → IsValid b → IsValueOf value a → IsValueOf value b → a ≡ b }
{}
