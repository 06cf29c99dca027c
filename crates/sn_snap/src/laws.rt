//! The laws that the definitions of `specs/` keep. The functions do nothing: their clauses are the laws.
ghost use Rattle.sn_snap.specs.Laws.{OneBitIsTaken, OtherNamesOutlive, OtherNamesStay, PutAndTakenIsNothing, RootBodiesHoldCatalogues, RootBodiesLetOneGo, RootBodiesTakeOneMore, VersionsHaveTheBits, VersionsHaveTheRoom};

/// The snapshots of each root body are a catalogue.
pub fn root_bodies_hold_catalogues()
    ensures { RootBodiesHoldCatalogues }
{}

/// A root body stays one with a new snapshot, and without one.
pub fn root_bodies_stay()
    ensures with { RootBodiesTakeOneMore }
    ensures without { RootBodiesLetOneGo }
{}

/// Each version has a bit for each snapshot that it allows, and a root body has room for it.
pub fn versions_fit()
    ensures bits { VersionsHaveTheBits }
    ensures room { VersionsHaveTheRoom }
{}

/// A change leaves what other names denote, and their bits; one that is taken back leaves all as it was.
///
/// Proved: The snapshots of other names and their bits are unchanged, and a snapshot that is added and removed leaves what was
/// there.
pub fn changes_leave_the_others()
    ensures with { OtherNamesStay }
    ensures without { OtherNamesOutlive }
    ensures bits { OneBitIsTaken }
    ensures taken_back { PutAndTakenIsNothing }
{}
