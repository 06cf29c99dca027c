//! What a point is built of.
use sn_layout::{RootBody, Slot};
use sn_map::Map;

/// The root that counts, as a mounted file system keeps it for its next consistency point. What changed since is kept
/// apart.
#[derive(Drop)]
pub struct PointBase {
    /// Where the root is that counts.
    pub slot: Slot,
    pub root: RootBody,
    /// The words of its map.
    pub map: Map,
}
