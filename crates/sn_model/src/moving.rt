use sn_walk::{Found, Object};

/// What the two names of a rename lead to.
#[derive(Drop)]
pub struct Moving {
    /// The directory that has the old name, and its place in the first path.
    pub old_directory: Object,
    pub old_place: u16,
    /// The directory that has the new name, or is to have it, and its place in the second path.
    pub new_directory: Object,
    pub new_place: u16,
    /// What has the old name.
    pub found: Found,
    /// What has the new name, if there is such.
    pub target: Option<Found>,
}
