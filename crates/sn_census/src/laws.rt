//! What follows from the answers.
ghost use Rattle.sn_census.specs.Laws.{LinkFaultsAreReal};

/// No root is linked that has a reported fault.
///
/// Proved: A root with a fault that is reported isn't linked, so the answer is exact on any root that is sound but for its
/// links.
pub fn census_laws()
    ensures { LinkFaultsAreReal }
{}
