//! What follows from the answers.
ghost use Rattle.sn_check_root.specs.Laws.{LinksMakeRootsSound, StandingFaultsAreReal};

/// With its links, a root whose check is `Ok` is sound; and no root that has a fault is.
///
/// Proved: A root that is `Ok` is sound with its links, and no root with a fault is, so the answer is exact on any image.
pub fn root_laws()
    ensures sound { LinksMakeRootsSound }
    ensures faults { StandingFaultsAreReal }
{}
