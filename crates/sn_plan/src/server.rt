//! What a server holds.

use sn_callers::OpenFiles;
use sn_node_table::NodeTable;
use std::alloc::Global;

/// What a server of a mount holds: what it serves, and what it keeps of the mount.
pub struct Server<F> {
    pub file_system: F,
    /// Whether a call changed something since this was last cleared.
    pub changed: bool,
    /// The nodes that messages name by ids.
    pub nodes: NodeTable,
    /// The open files, by the handles that messages name them by.
    pub files: OpenFiles,
    pub alloc: Global,
}
