//! The laws that the definitions of `specs/` keep.
ghost use Rattle.sn_check_roots.specs.Laws.{OtherWordsStand, RightWordsTellRoots, SetsBegin, SetsGrow};

/// What the marks of all roots result in, and the words of a copy that are the same or others.
///
/// Proved: Zeros are the sets of no roots, and the marks of a root whose bit no other has add it to the sets; where the
/// words of a copy are those of the marks of all roots, they are what the roots reach, and a word that isn't is a fault of
/// its block.
pub fn set_laws()
    ensures begin { SetsBegin }
    ensures grow { SetsGrow }
    ensures right { RightWordsTellRoots }
    ensures others { OtherWordsStand }
{}
