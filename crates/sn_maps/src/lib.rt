//! Maps in memory, and the finite maps that they represent.
//!
//! The way through: `specs/Maps` has the finite map that a list of entries shows, each key and each value seen by a function,
//! and a map with a value changed at a key or set back; `proofs/MapLemmas` what a look-up finds in these, over any keys and
//! values, and `proofs/KeyLemmas` their keys in order. [`NameMap`] is a map by strings of bytes, which is seen as the finite
//! map itself.
//!
//! ```text
//! let mut numbers = NameMap::new(alloc);
//! numbers.insert(name.into_bytes(), 7)?;
//! let number = numbers.get(b"notes");
//! ```
#![tactic(auto)]

mod names;

pub use names::NameMap;
