use crate::MountFault;

/// How a run ended.
#[derive(Clone, Copy, PartialEq, Eq, Hash)]
pub enum End {
    /// Each event was answered, and the unmount too.
    Clean,
    /// The mount had stopped, or the last unmount was refused for another cause than memory.
    Stopped,
    /// The list of replies found no memory, and nothing was done; or the last unmount found none.
    Memory,
    /// There was no first mount, and no event was answered.
    Mount(MountFault),
}
