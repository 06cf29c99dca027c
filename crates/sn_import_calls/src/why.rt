use crate::stop::Stop;
use sn_import_entry::EntryFault;

/// What is reported of an entry.
#[derive(Clone, Copy)]
pub enum Why {
    /// It isn't made, since its records or its long name have over 1,048,576 bytes, or those for all entries do.
    TooLong,
    /// It isn't made.
    Fault(EntryFault),
    /// It is made without S_ISUID.
    SetUid,
    /// It isn't made, or not to its end.
    Stop(Stop),
}
