//! What follows from the definitions. The function does nothing: its clause is the law.
ghost use Rattle.sn_acl_text.specs.Laws.{WrittenIsRead};

/// What was written for an ACL says its entries.
///
/// Proved: What was written for an ACL says its entries.
pub fn written_texts_are_read()
    ensures { WrittenIsRead }
{}
