//! The messages of a mount that are about names: LOOKUP, MKDIR, UNLINK, RMDIR, RENAME, LINK and ACCESS.
//!
//! The model. Each message has a plan (`specs/Messages`), of the parts that `sn_plan` has, and the function that answers it does what the plan
//! asks for. A name of the mount is looked at as the name of the image that denotes it, with its path (`specs/Names`); `specs/Entries` says
//! what an answer tells of a node.
//!
//! In the directory of snapshots MKDIR makes a snapshot and RMDIR deletes one.
//!
//! Where the system checks, what is made is user 0's, and [`give_owner`] gives it to who asked for it.
//!
//! The other messages use what these share: [`child_of`], the name of a directory with its path; [`met_at`] and [`made_at`], the answer for what
//! was found or made under it; [`status_at`], [`seen_at`], [`status_as`] and [`does`], what user 0 and who asks are told.
//!
//! The way through: `names` has the names, `entries` what is told of a node, `meeting` how it gets its id, `asking` the calls, `giving` whose is what was made, and `looking`,
//! `making`, `removing` and `moving` the messages.
//!
//! What the sources leave open is decided in `docs/DECISIONS.md`, under "Messages on names".
//!
//! ```text
//! let entry = lookup(&mut server, &asker, parent, name)?;
//! unlink(&mut server, &asker, parent, name)?;
//! ```
#![tactic(auto)]

mod asking;
mod entries;
mod giving;
mod looking;
mod making;
mod meeting;
mod moving;
mod names;
mod removing;

pub use asking::{does, status_as};
pub use entries::{NO_TIME, YEAR, attributes_of, entry_of};
pub use giving::give_owner;
pub use looking::{access, lookup};
pub use making::mkdir;
pub use meeting::{made_at, met_at, number_at, number_of, seen_at, status_at};
pub use moving::{link, rename};
pub use names::{Child, child_of, image_of, is_snapshots};
pub use removing::{rmdir, unlink};
