//! Why a point isn't made.

/// Why a consistency point isn't made. Of all but `Device` nothing was written, and nothing has changed.
#[derive(Clone, Copy, PartialEq, Eq)]
pub enum PointFault {
    /// Memory was refused.
    Memory,
    /// No root can follow: its generation or its epoch would be past 2^62, or none could follow on it.
    Age,
    /// A block couldn't be read.
    Read,
    /// What was read can't be used, or what is asked for can't be made of the snapshots. Over a sound root this isn't
    /// returned where what is asked can be made.
    Damaged,
    /// The device failed while it was written to.
    Device,
}
