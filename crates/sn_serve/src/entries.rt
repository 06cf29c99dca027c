//! The entries of a READDIR.
ghost use Rattle.std.specs.Prelude.{◌≤◌};

use sn_fuse_replies::Listing;

/// The entries that a READDIR is answered with: 65,536 bytes of them at the most.
#[derive(Drop)]
pub struct Entries {
    pub listing: Listing,
    ghost small: { listing.room ≤ 65536 },
}
