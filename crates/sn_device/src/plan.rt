//! The faults that a device in memory is set to answer with.

/// When writes stop succeeding.
#[derive(Clone, Copy, PartialEq, Eq)]
pub enum Stop {
    Never,
    /// So many more writes succeed. The one after them fails, and so does every later call.
    After(u64),
    /// Every call fails.
    Reached,
}

/// The faults that a device in memory is to answer with.
#[derive(Clone, Copy, PartialEq, Eq)]
pub struct Plan {
    /// The call from now on that fails, counted from 1.
    pub fails_in: Option<u64>,
    pub stop: Stop,
}

impl Plan {
    ghost use Rattle.std.specs.Prelude.{◌≡◌};
    ghost use Rattle.sn_device.specs.Plan.{is_next, is_due, is_write_due, after_call, after_write};

    /// No fault is due.
    pub const NONE: Plan = Plan {
        fails_in: None,
        stop: Stop::Never,
    };

    // Counts a call, and says whether it is the one that is to fail.
    fn take_turn(&mut self) -> bool
        ensures due { result ≡ is_next self.old.fails_in }
        ensures after { self.new ≡ after_call self.old }
    {
        let (fails_in, is_next) = match self.fails_in {
            None | Some(0) => (None, false),
            Some(1) => (None, true),
            Some(more) => (Some(more - 1), false),
        };
        self.fails_in = fails_in;
        is_next
    }

    /// Takes a read or a sync into account, and says whether it is to fail.
    pub fn take_call(&mut self) -> bool
        ensures due { result ≡ is_due self.old }
        ensures after { self.new ≡ after_call self.old }
    {
        self.take_turn() || matches!(self.stop, Stop::Reached)
    }

    /// Takes a write into account, and says whether it is to fail.
    pub fn take_write(&mut self) -> bool
        ensures due { result ≡ is_write_due self.old }
        ensures after { self.new ≡ after_write self.old }
    {
        let fails = self.take_turn();
        match self.stop {
            Stop::Never => fails,
            Stop::After(0) => {
                self.stop = Stop::Reached;
                true
            }
            Stop::After(more) => {
                if !fails {
                    self.stop = Stop::After(more - 1);
                }
                fails
            }
            Stop::Reached => true,
        }
    }
}
