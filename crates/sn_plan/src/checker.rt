//! Who checks what a message may do.
ghost use Rattle.std.specs.Prelude.{◌≡◌};
ghost use Rattle.sn_plan.specs.Checking as checking;

use sn_callers::Caller;

/// Who checks what a message may do.
#[derive(Clone, Copy, PartialEq, Eq, Debug)]
pub enum Checker {
    /// The server: calls are made as who sent the message.
    Server {
        /// Whether the server's namespace maps all groups, so that group 65534 of a text is that group.
        maps_all: bool,
    },
    /// The system, before it sends the message: all calls are user 0's.
    System,
}

/// User 0, in group 0.
const SUPERUSER: Caller = Caller { user: 0, group: 0 };

impl Checker {
    /// As whom calls are made for a message of a sender.
    pub fn caller(self, sender: Caller) -> Caller
        ensures { result ≡ checking.caller_of self sender }
    {
        match self {
            Checker::Server { .. } => sender,
            Checker::System => SUPERUSER,
        }
    }

    /// To whom is given what is made for a message of a sender: `None` where it is theirs already.
    pub fn maker(self, sender: Caller) -> Option<Caller>
        ensures { result ≡ checking.maker_of self sender }
    {
        match self {
            Checker::Server { .. } => None,
            Checker::System => {
                if sender.user == 0 && sender.group == 0 {
                    None
                } else {
                    Some(sender)
                }
            }
        }
    }

    /// Whether all groups are mapped. User 0 is in none that has to be.
    pub(crate) fn maps_all(self) -> bool
        ensures { result ≡ checking.maps_all self }
    {
        match self {
            Checker::Server { maps_all } => maps_all,
            Checker::System => false,
        }
    }
}
