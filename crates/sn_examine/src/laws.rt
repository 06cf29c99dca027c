//! The laws that the definitions of `specs/` keep.
ghost use Rattle.sn_examine.specs.Laws.{CleanDisksAreImages, ImagesAreClean};

/// A disk is sound exactly where it is an image of a world: what a mount serves is what a check calls clean.
///
/// Proved: A disk is clean exactly where it is an image of a world, with snapshots or without.
pub fn image_laws()
    ensures clean { ImagesAreClean }
    ensures image { CleanDisksAreImages }
{}
