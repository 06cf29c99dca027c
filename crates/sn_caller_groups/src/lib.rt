//! The supplementary groups of a caller, as Linux lists them in `/proc/PID/status`: the head of a message has the user and the
//! group of who asks, and not these.
//!
//! A text of `/proc/PID/status` consists of lines `FIELD:VALUE` (proc_pid_status(5)). The value of `Groups` is the numbers of the
//! groups, in decimal, with blanks between them. A name in a text has no line end: Linux writes `\n` for it.
//!
//! A caller is never given fewer groups than it has, since an entry of a group may deny. So there are none ([`GroupsFault`]) where
//! the text is cut short or misspelt, where it lists more than 32, and where one is 65534: Linux shows that number for a group that
//! the reader's user namespace doesn't map (user_namespaces(7)). Where the namespace maps all ([`maps_all_groups`]), 65534 is a group
//! like others.
//!
//! The model: `specs/Status` has the groups that a text lists, and the grammar of such a text (`Lists`); `specs/Map` the text of a whole
//! map. The law: a text is read as groups exactly where the grammar has it ([`listed_groups_are_read`]).
//!
//! What the sources leave open is decided in `docs/DECISIONS.md`, under "Groups of callers".
//!
//! ```text
//! let all_mapped = maps_all_groups(gid_map);
//! let groups = caller_groups(status, all_mapped).map_err(|_| Errno::EACCES)?;
//! ```
#![tactic(auto)]

mod groups;
mod laws;
mod map;
mod status;

pub use groups::{CallerGroups, GroupsFault, caller_groups};
pub use laws::listed_groups_are_read;
pub use map::maps_all_groups;
