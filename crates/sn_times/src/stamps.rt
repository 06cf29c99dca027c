//! The times of an object, and what marks them for update.
ghost use Rattle.std.specs.Prelude.{◌≡◌};
ghost use Rattle.sn_times.specs.Dates.{all_at, changed_at, dated_at, modified_at};

use sn_fuse::Time;
use std::marker::Model;

/// The times of an object (POSIX.1-2017, 4.9 "File Times Update").
#[derive(Clone, Copy, PartialEq, Eq, Debug)]
pub struct Stamps {
    pub accessed: Time,
    pub modified: Time,
    pub changed: Time,
}

/// The name of a snapshot. Seen as its bytes.
#[derive(Drop)]
pub struct TreeName<'a> {
    bytes: &'a [u8],
}

impl<'a> Model for TreeName<'a> {
    ghost use Rattle.std.specs.Prelude.{ℕ, List};

    ghost Value = { List ℕ };

    ghost view = { λ name. name.bytes.now };
}

impl<'a> TreeName<'a> {
    /// The name with these bytes. Any may be given.
    pub fn new(bytes: &'a [u8]) -> Self
        ensures { result ≡ bytes.now }
    {
        TreeName { bytes }
    }

    /// Its bytes.
    pub fn as_bytes(&self) -> &'a [u8]
        ensures { result.now ≡ self.now }
    {
        self.bytes
    }
}

/// What a message marks for update, and what it tells of a snapshot.
#[derive(Drop)]
pub enum Mark<'a> {
    /// The object with this number was made: all three times are now.
    Made {
        number: u64,
    },
    /// Its content, or the entries of a directory, changed: modification and change time are now.
    Modified {
        number: u64,
    },
    /// Its attributes or links changed: change time is now.
    Changed {
        number: u64,
    },
    /// Its access and modification time were set (`futimens`), where one isn't given it stays. Change time is now.
    Dated {
        number: u64,
        accessed: Option<Time>,
        modified: Option<Time>,
    },
    /// A snapshot was made, whose objects have this home: they get the times that those of the live tree with the same numbers have.
    Frozen {
        home: u64,
        name: TreeName<'a>,
    },
    /// The snapshot of this name is gone.
    Thawed {
        name: TreeName<'a>,
    },
    /// The objects of the snapshot of this name have this home: they get the times that wait for it.
    Met {
        home: u64,
        name: TreeName<'a>,
    },
}

impl Stamps {
    // All three times are one.
    pub(crate) fn at(time: Time) -> Stamps
        ensures { result ≡ all_at time }
    {
        Stamps {
            accessed: time,
            modified: time,
            changed: time,
        }
    }

    // These times once the content changed.
    pub(crate) fn modified(self, now: Time) -> Stamps
        ensures { result ≡ modified_at now self }
    {
        Stamps {
            modified: now,
            changed: now,
            ..self
        }
    }

    // These times once attributes changed.
    pub(crate) fn changed(self, now: Time) -> Stamps
        ensures { result ≡ changed_at now self }
    {
        Stamps {
            changed: now,
            ..self
        }
    }

    // These times once some of them were set.
    pub(crate) fn dated(self, now: Time, accessed: Option<Time>, modified: Option<Time>) -> Stamps
        ensures { result ≡ dated_at now accessed modified self }
    {
        Stamps {
            accessed: accessed.unwrap_or(self.accessed),
            modified: modified.unwrap_or(self.modified),
            changed: now,
        }
    }
}
