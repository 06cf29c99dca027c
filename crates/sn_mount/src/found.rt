//! What a mount has found.
use sn_cp_whole::PointBase;
use sn_held::Room;
use sn_layout::{Geometry, RootBody, Slot};
use sn_live::LiveTree;
use sn_live_world::LiveWorld;
use sn_log::{Log, Position};
use sn_map::Map;

/// What a mount has read: the newest root with its map, the live tree over the root's with the log on top of it, where
/// the log continues, and the room that is left.
#[derive(Drop)]
pub(crate) struct FoundDisk {
    pub geometry: Geometry,
    pub slot: Slot,
    pub root: RootBody,
    pub map: Map,
    pub at: Position,
    /// What the log changed of the root's tree, which stays on the device.
    pub live: LiveTree,
    pub room: Room,
    /// Whether something is to recover: a record is logged, or a file has no name.
    pub recovers: bool,
}

/// What a mount has made ready: the world, where its log continues, the room that is left, and what is kept for the next
/// point.
#[derive(Drop)]
pub struct Recovered {
    pub log: Log,
    /// The live tree over that of the root that counts, in which nobody is logged in.
    pub world: LiveWorld,
    pub room: Room,
    pub base: PointBase,
}
