//! How far a point is.

/// How far a consistency point is. What is unsynced may be torn by a crash; from `Stored` on nothing of it is.
#[derive(Clone, Copy, PartialEq, Eq)]
pub enum Stage {
    /// So many of the new blocks are written.
    Blocks(usize),
    /// All are, and so many blocks of the map copy.
    MapBlocks(u32),
    /// All of these are synced.
    Stored,
    /// The slot's gate is closed, synced.
    Shut,
    /// The next root's body is written, synced; the gate is still closed.
    Bodied,
    /// The gate is open, synced: the next root counts.
    Done,
}
