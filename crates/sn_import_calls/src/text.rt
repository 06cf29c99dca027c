//! Why an entry isn't made, in the words of a report.

use crate::stop::Stop;
use crate::why::Why;
use sn_import_entry::EntryFault;
use sn_untar::NameFault;
use std::fmt;

fn name_words(fault: NameFault) -> &'static str {
    match fault {
        NameFault::Parent => "goes by ..",
        NameFault::NoName => "byte 0",
        NameFault::LongName => "name too long",
        NameFault::LongPath => "path too long",
    }
}

fn entry_words(fault: EntryFault) -> &'static str {
    match fault {
        EntryFault::SymbolicLink => "symbolic link",
        EntryFault::Device => "device",
        EntryFault::Pipe => "pipe",
        EntryFault::Sparse => "sparse file",
        EntryFault::Kind => "unknown kind",
        EntryFault::TooLarge => "too large",
        EntryFault::Owner => "owner",
        EntryFault::Acl => "acl",
        EntryFault::Account => "account",
        EntryFault::NameEmpty => "no name",
        EntryFault::LinkEmpty => "link to no file",
        EntryFault::Name(fault) | EntryFault::Link(fault) => name_words(fault),
    }
}

impl fmt::Display for Why {
    fn fmt<W: fmt::Write>(&self, f: &mut fmt::Formatter<W>) -> fmt::Result {
        match self {
            Why::TooLong => f.write_str("records too long"),
            Why::Fault(EntryFault::Link(fault)) => write!(f, "link {}", name_words(*fault)),
            Why::Fault(fault) => f.write_str(entry_words(*fault)),
            Why::SetUid => f.write_str("set-user-ID dropped"),
            Why::Stop(Stop::Refused(errno)) => write!(f, "{errno}"),
            Why::Stop(Stop::Memory) => f.write_str("memory"),
            Why::Stop(Stop::Damaged | Stop::Ended) => f.write_str("damaged"),
            Why::Stop(Stop::Unread(_)) => f.write_str("input"),
        }
    }
}
