//! Scripts and replies as text: one line for each event, and one for each reply. `sn_words` has the words of both.
//!
//! The spelling is a function of the event. `specs/Lines.antt` gives the line of an event and says which
//! events have one, and `specs/Scripts.antt` what a script and its first bad line are. `specs/Reading.antt`
//! reads words from left to right, and is proved to be the way back.
//!
//! Begin with `reading`; it cuts off a line at a time, whose words `line` reads as an event, by `arguments` where
//! several calls have the same ones.
//!
//! The line of a reply is a function of the reply: `specs/Replies.antt` says which. It begins with `ok`, `err` for a call
//! that was refused, or `fault` for a mount that failed. What a refusal and a denial are called, `sn_model` says. The way through
//! is from the end of `printing`: `print_replies`, and above it the cases of a reply.
//!
//! ```
//! let events = read_script(alloc, b"0 login 0 0 -\n0 stat /\n")?;
//! let text = print_replies(alloc, replies.as_slice())?;
//! ```
//!
//! What the sources leave open is decided in `docs/DECISIONS.md`, under "Scripts and the program".
#![tactic(auto)]

mod arguments;
mod fault;
mod line;
mod printing;
mod reading;

pub use fault::ScriptFault;
pub use printing::print_replies;
pub use reading::{SCRIPT_MAX, read_script};
