//! Paths, and the walk from a path to what it names (POSIX.1-2017, 4.13 Pathname Resolution).
//!
//! A path is parsed first, without a tree: [`Path::parse`] takes a word of a call and answers
//! the path, which borrows the word's bytes, or what is wrong in it. Clauses see a path as the list
//! of its names. A tree is whatever implements [`TreeView`]; clauses see it as the two look-ups that
//! it shows. [`walk`] follows a path's names through a tree for a caller, and answers where they
//! lead, or the first test that fails, with its place.
//!
//! The way through begins with `specs/Paths` and `specs/Walks`, which say what `parse` and `walk` answer, and
//! `specs/LookUps`, which says what `walk` looks up. `path` parses, `view` and `object` have what a walk sees, and `walking` walks.
//!
//! What the sources leave open is decided in `docs/DECISIONS.md`, under "Walks and views".
//!
//! ```text
//! let path = Path::parse(b"/home/ada")?;
//! match walk(&mut view, &cred, &path)? {
//!     Walked::Name { object: Some(object), .. } => attributes_of(&mut view, object),
//!     ..
//! }
//! ```
#![tactic(auto)]

mod fault;
mod object;
mod path;
mod view;
mod walking;

pub use fault::{Failure, PathFault};
pub use object::{Home, Object};
pub use path::{PATH_MAX, Path};
pub use view::{Attributes, ROOT_NUMBER, TreeView};
pub use walking::{Found, Obstacle, WalkRefusal, Walked, attributes_of, child_of, reached, walk};
