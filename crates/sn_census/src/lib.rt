//! Counting the names of one root of an image, and comparing them with the links that its inodes say.
//!
//! The model is that of `sn_image`, which says with `IsLinked` when the names and the inodes of a root
//! agree, and of `sn_sound`, which says with `IsLinkFault` which fault of them is at which block. A root
//! is counted once all else in it was checked (`sn_check_root`). Over a device that tells its bytes the
//! answer is then exact: at `Ok` the root is linked, and so sound, and a reported fault is there. Over any
//! other device the call ends, and reads only.
//!
//! A `Census` has a row for each number: the kind of its inode, how many names it is to have, how many were
//! found, and the directory in which the last of them was. It is taken once, and counts root after root. Rows
//! past the inode file's records are those of unused numbers, and no pass goes over them.
//!
//! The way through: `table` has the rows, and `readers` looks up inodes and blocks. In order, `loading` fills
//! the rows from the inodes; `naming` goes through all directories, block after block, and finds the first
//! name too many, that of an unused number or of the root directory among them; `lacking` finds the first
//! number with a name too few; and `climbing` goes from each directory up, from parent to parent, and finds
//! the first that doesn't reach the root. A directory has one name by then, so there is one way up, and
//! each step of it is gone once. `counting` puts them together.
//!
//! What the sources leave open is decided in `docs/DECISIONS.md`, under "The image check".
//!
//! ```text
//! let mut census = Census::new(alloc)?;
//! check_root(alloc, blocks, map, &root, &limits, &inode_file, body)?;
//! count_links(&mut census, blocks, &limits, &inode_file, body)?;
//! ```
#![tactic(auto)]

mod climbing;
mod counting;
mod lacking;
mod laws;
mod loading;
mod naming;
mod readers;
mod table;

pub use counting::count_links;
pub use laws::census_laws;
pub use table::Census;
