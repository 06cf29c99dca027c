//! The counts of a device, and whether it has ended.
ghost use Rattle.std.specs.Prelude.{◌≡◌, ◌+◌, ◌^◌, ◌<◌, false};
ghost use Rattle.sn_device.specs.Status.{has_ended, uncalled, one_failure, one_write, one_sync, spent};

/// How many sectors a device has, and how often it was called since it was made.
#[derive(Clone, Copy, PartialEq, Eq)]
pub struct Status {
    pub sectors: u64,
    /// The calls that were answered with a fault.
    pub failures: u64,
    /// The writes, failed or not.
    pub writes: u64,
    /// The syncs, failed or not.
    pub syncs: u64,
    /// The device has ended though no count is at its top, since what it keeps of its
    /// calls couldn't grow.
    pub is_spent: bool,
}

impl Status {
    /// Of a device of so many sectors that wasn't called yet.
    pub fn new(sectors: u64) -> Self
        ensures { result ≡ uncalled sectors }
    {
        Status {
            sectors,
            failures: 0,
            writes: 0,
            syncs: 0,
            is_spent: false,
        }
    }

    /// Whether every call from now on is a fault that does nothing and is not counted.
    pub fn has_ended(&self) -> bool
        ensures { result ≡ has_ended self.now }
    {
        self.is_spent || self.failures == u64::MAX || self.writes >= u64::MAX - self.syncs
    }

    /// Counts a call that is answered with a fault, besides the count of the call itself.
    pub fn count_failure(&mut self)
        requires { self.old.failures + 1 < 2 ^ 64 }
        ensures { self.new ≡ one_failure self.old }
    {
        self.failures += 1;
    }

    /// Counts a write, failed or not.
    pub fn count_write(&mut self)
        requires { has_ended self.old ≡ false }
        ensures { self.new ≡ one_write self.old }
    {
        self.writes += 1;
    }

    /// Counts a sync, failed or not.
    pub fn count_sync(&mut self)
        requires { has_ended self.old ≡ false }
        ensures { self.new ≡ one_sync self.old }
    {
        self.syncs += 1;
    }

    /// The device has ended: what it keeps of its calls couldn't grow.
    pub fn spend(&mut self)
        ensures { self.new ≡ spent self.old }
    {
        self.is_spent = true;
    }
}
