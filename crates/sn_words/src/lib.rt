//! How the words of scripts and replies are spelled, and the reading of each kind of word.
//!
//! `specs/Fields.antt` gives the word of a value: a number, a mode, an ACL's kind, groups, flags, bytes.
//! `specs/Reading.antt` says what a word of each kind spells, `None` where it spells nothing, and is proved in
//! `proofs` to be the way back: what is read is spelled so, and what is spelled so is read.
//!
//! The way through: `cut` takes a text apart at a byte, `field` has a function for each kind of word, which answers what
//! `specs/Reading.antt` says or that there was no memory. `sn_script` makes lines of words, and prints them.
//!
//! ```
//! let mode = octal(b"0755")?;
//! let groups = groups(alloc, b"50,60")?;
//! ```
//!
//! What the sources leave open is decided in `docs/DECISIONS.md`, under "Scripts and the program".
#![tactic(auto)]

pub mod cut;
mod fault;
pub mod field;

pub use fault::SpellingFault;
