//! The laws of `specs/`. The function does nothing: its clauses are the laws.
ghost use Rattle.sn_serve_laws.specs.Laws.{ChmodIsLeftOut, ChownIsLeftOut};

/// A call that a SETATTR leaves out changes nothing.
///
/// Proved: A chmod or a chown that a SETATTR doesn't make, since the node is so already, would be answered to who asks, and would set the node to what it is.
pub fn serve_laws()
    ensures chmod { ChmodIsLeftOut }
    ensures chown { ChownIsLeftOut }
{}
