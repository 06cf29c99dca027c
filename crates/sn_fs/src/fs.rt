//! A mounted file system.
use sn_block::Blocks;
use sn_cp_whole::{GoingPoint, PointBase};
use sn_device::Device;
use sn_held::Room;
use sn_live_world::LiveWorld;
use sn_log::Log;
use std::alloc::Global;

/// A mounted file system: the live tree, read on demand from the root that counts and from what changed since, the log that
/// every change of it goes to, the room that is left for what was logged, the root, and the point that is in progress.
#[derive(Drop)]
pub struct Fs<D: Device> {
    pub(crate) alloc: Global,
    pub(crate) blocks: Blocks<D>,
    pub(crate) log: Log,
    pub(crate) world: LiveWorld,
    pub(crate) room: Room,
    pub(crate) base: PointBase,
    pub(crate) going: Option<GoingPoint>,
    /// A failure of the device has stopped it: what is on the disk isn't known.
    pub(crate) has_stopped: bool,
}
