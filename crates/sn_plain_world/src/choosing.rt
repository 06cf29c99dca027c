//! Which number a new node gets, and which number a change takes a name of.
ghost use Rattle.std.specs.Prelude.{◌≡◌};
ghost use Rattle.sn_model.specs.Steps.{filled};
ghost use Rattle.sn_caller.specs.Choosing.{Chooses, HasNumber};

use crate::PlainWorld;
use sn_caller::Chosen;
use sn_limits::Limits;
use sn_model::{Caller, Change, Pending};
use sn_walk::Home;

/// A caller who opens what is made gets the new node's number.
fn with_number(caller: Caller, number: u16) -> Caller
    ensures { result ≡ filled number caller }
{
    match caller {
        Caller::OpensNew { fd, flags } => Caller::Opens {
            fd,
            home: Home::Live,
            number,
            flags,
        },
        other => other,
    }
}

impl PlainWorld {
    ghost use Rattle.sn_plain_world.specs.Plain.{kept_of, world_of};

    /// What was pending, with the next number for a new node. One has to be unused.
    ///
    /// Proved, also of `apply`: The change with the number chosen is made of the tree exactly, or not at all.
    pub fn choose<'a>(&self, pending: Pending<'a>, caller: Caller) -> Chosen<'a>
        requires { HasNumber (world_of self.now).live pending }
        ensures { Chooses (world_of self.now).live (kept_of self.now) pending.entry caller result }
    {
        match pending {
            Pending::Nothing => Chosen {
                change: None,
                caller,
                lost: None,
            },
            Pending::Makes {
                directory,
                name,
                kind,
                ownership,
            } => match self.tree.next_number(&Limits::WRITTEN) {
                Some(number) => Chosen {
                    change: Some(Change::Make {
                        directory,
                        name,
                        number,
                        kind,
                        ownership,
                    }),
                    caller: with_number(caller, number),
                    lost: None,
                },
                None => unreachable!(),
            },
            Pending::Does(change) => {
                let lost = self.tree.loses(&change);
                Chosen {
                    change: Some(change),
                    caller,
                    lost,
                }
            }
        }
    }
}
