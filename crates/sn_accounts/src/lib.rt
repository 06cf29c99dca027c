//! Names of users and of groups, from the text of `/etc/passwd` or `/etc/group` (passwd(5), group(5)): GNU tar writes the names
//! into the ACLs of an archive, and an image knows numbers alone.
//!
//! A line is `NAME:PASSWORD:NUMBER`, and whatever follows another colon isn't looked at. As in getpwnam() over files (glibc), blanks
//! before the name go, and of two lines with one name the first counts. No account is in a line that is empty or a comment
//! (`#`), by one that sends to another source of names (`+`, `-`), and by one whose number isn't of 32 bits, in decimal digits
//! without zeros before them.
//!
//! The model. `account_of` is the account of a line, `accounts_of` those of a text, in the order of its lines, and `Accounts` is the
//! finite map of these, which has the first number of each name.
//!
//! The way through: `lines` reads a line, and `accounts` has the table.
//!
//! What the sources leave open is decided in `docs/DECISIONS.md`, under "Names of users and groups".
//!
//! ```text
//! let users = Accounts::read(alloc, text_of_passwd)?;
//! let number = users.number(b"daemon"); // 1
//! ```
#![tactic(auto)]

mod accounts;
mod lines;

pub use accounts::Accounts;
