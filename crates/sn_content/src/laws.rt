//! When what is wanted of a content ends at its size, and what bytes a content has.
ghost use Rattle.sn_content.specs.Laws.{GrownContentsEnd, CutContentsEnd, KeptContentsEnd, ContentsHaveTheBytes};

/// Where the dirty blocks end at the new size, so does what is wanted of a content that doesn't shrink, of one of
/// which whole blocks stay, and of one in which a block that a cut goes through stays and has zeros from there on;
/// and each byte of a planned content is the one that is wanted.
///
/// Proved: Each byte of a planned content is the one that is wanted.
pub fn content_laws()
    ensures grown { GrownContentsEnd }
    ensures cut { CutContentsEnd }
    ensures kept { KeptContentsEnd }
    ensures bytes { ContentsHaveTheBytes }
{}
