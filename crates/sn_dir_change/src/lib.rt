//! Changing directories: a planned tree in which names were set and taken out.
//!
//! The model is that of `sn_image` and `sn_tree`. A directory is the finite map that `number_of` reads from
//! the names of its blocks, one after the other. A change plans and writes nothing: what it says of the new
//! tree holds in every store that has the new blocks and agrees with the old one in what the old tree
//! reaches (`IsDirectoryPlanned`). There the names of the list denote what they were to denote, or aren't
//! there, all others denote what they did, and none occurs twice (`IsChanged`); that is promised where
//! none occurred twice before, as on any sound image. Where none of its blocks was a hole, none is. A name that
//! is there is set in its place, so each name touches one block. The tree itself is that of the changed blocks,
//! by `plan_tree`.
//!
//! Whether a name is there is known only after the last block, and a name that were put before would touch a
//! second one. So the blocks are gone through twice, however many names there are. First all names are looked
//! for in them, up to the block where the last one is found; that changes nothing. Then names that are there are
//! set or taken out, and names that wait are put where there is room, also where one was taken out, up to
//! where no change is left. `IsUnderWay` is what holds between two blocks. What still waits after the last
//! block fills new ones, one after the other, so a directory that grows has few blocks for its names
//! (`IsSizeWith`): by `size_laws` it stays within the largest size. Each block's names are marked first
//! (`name_marks`), and each change is kept with the mark that is its name's, so that it costs a block that
//! doesn't have the name one look, and not one at each name.
//!
//! Where the directory has an index of its names (`sn_names`, kept by `Blocks`), not all blocks are read. Each
//! name is looked up by itself, and then blocks are passed over that the index says to have none of the names
//! that are there, and less room than the shortest name that waits takes (`filter`). `change_names` would leave
//! such a block as it is, so the plan is the same, block for block, as without an index.
//!
//! The way through: `amend` changes one name in one block, `pass` all of them, `standing` says which names
//! the directory has, `pending` are the changes still to be made, `filter` says which blocks they can't touch,
//! `through` goes over the others, `fill` makes new ones, and `planned` puts all together.
//!
//! What the sources leave open is decided in `docs/DECISIONS.md`, under "Directories that change".
//!
//! ```text
//! let mut build = Build::new(alloc, allocator);
//! let tree = insert(alloc, &mut build, &mut blocks, &tree, b"passwd", 17)?;
//! for block in build.added() { .. }
//! ```
#![tactic(auto)]

mod amend;
mod fill;
mod filter;
mod laws;
mod name_change;
mod name_marks;
mod pass;
mod pending;
mod planned;
mod standing;
mod through;

pub use laws::size_laws;
pub use name_change::{NameChange, are_changes};
pub use planned::{change, insert, remove};
