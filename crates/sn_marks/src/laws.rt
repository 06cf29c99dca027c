//! The laws that the definitions of `specs/` keep.
ghost use Rattle.sn_marks.specs.Laws.{MarksAreOnce, MarksGoDown, MarksJoin};

/// How marks add up.
///
/// Proved: Marks add up along lists of pointers and down a level, and whatever was gone through has each block at most once.
pub fn mark_laws()
    ensures join { MarksJoin }
    ensures down { MarksGoDown }
    ensures once { MarksAreOnce }
{}
