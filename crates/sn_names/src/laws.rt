//! How long an index stays true.
ghost use Rattle.sn_names.specs.Laws.{TellingStays};

/// What an index says stays true while the blocks that it rests on stay.
///
/// Proved, also of `NameIndexes::forget`: What an index says stays true while the blocks that its pointers lead to are
/// unchanged, and of those that are kept when a block is forgotten, whatever is written there.
pub fn name_laws()
    ensures { TellingStays }
{}
