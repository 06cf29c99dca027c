//! How large directories get.
ghost use Rattle.sn_dir_change.specs.Laws.{GrownDirectoriesFit};

/// A directory that grows stays within the largest size of a file, as long as it has no more names than a
/// directory may have: its blocks without room for a name are at most 4,404.
pub fn size_laws()
    ensures { GrownDirectoriesFit }
{}
