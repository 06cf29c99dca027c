//! Bytes that are written to an output, all of them, or as many as it takes before an error.
//!
//! The library's `write_all` says little after an error. Here the front of the text was written then, and nothing else, which
//! `AppendsFront` of `specs/Outputs` says. The way through: `writing` has the loop.
#![tactic(auto)]

mod writing;

pub use writing::write_front;
