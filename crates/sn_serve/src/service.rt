//! What answers the messages of a mount.

use sn_listings::Listings;
use sn_plan::{Checker, Server};
use sn_times::Times;

/// A server of a mount, with the directories that are open, and times.
pub struct Service<F> {
    pub server: Server<F>,
    pub listings: Listings,
    /// Who checks what messages may do. It never changes.
    pub checker: Checker,
    /// The times of all objects. The file system keeps none.
    pub times: Times,
}
