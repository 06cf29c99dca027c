//! The laws that the identity of an image keeps.
ghost use Rattle.sn_times_image.specs.IdentityLaws.{SameMarksHaveOneIdentity, OneIdentityHasSameMarks, SameMarksHaveOneRoot, PointsAreTold, FirstRecordsAreTold};

/// What two images of one identity have in common, and what gives an image another one.
///
/// Proved: Images with the same roots, gates and first gates of the log have one identity, and those of one identity have the same ones, and so the same
/// newest root, or SHA-256 collides. Another newest root, and the first record of a half of the log, change what the digest is of.
pub fn identity_laws()
    ensures same { SameMarksHaveOneIdentity }
    ensures one { OneIdentityHasSameMarks }
    ensures root { SameMarksHaveOneRoot }
    ensures points { PointsAreTold }
    ensures records { FirstRecordsAreTold }
{}
