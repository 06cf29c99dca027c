//! Which number a new node gets.
ghost use Rattle.std.specs.Prelude.{◌≡◌, true, IfSome, is_some};
ghost use Rattle.sn_caller.specs.Numbering.{gives_kept};
ghost use Rattle.sn_caller.specs.Choosing.{HasNumber};
ghost use Rattle.sn_live_world.specs.Turned.{Picks};
ghost use Rattle.sn_model.specs.Outcomes.{is_opening};
ghost use Rattle.sn_model.specs.Steps.{filled};
ghost use Rattle.sn_model.specs.Tree.{Tree};

use crate::LiveWorld;
use sn_limits::Limits;
use sn_model::{Caller, Change, Pending};
use sn_walk::Home;

/// The outcome of a call, with the number of a new node.
#[derive(Drop)]
pub struct Picked<'a> {
    /// The change that is to be made, if one is.
    pub change: Option<Change<'a>>,
    /// What becomes of the caller once the change is made.
    pub caller: Caller,
}

/// A caller who opens what is made gets the new node's number.
fn with_number(caller: Caller, number: u16) -> Caller
    ensures filled { result ≡ filled number caller }
    ensures opening { is_opening result ≡ is_opening caller }
{
    match caller {
        Caller::OpensNew { fd, flags } => Caller::Opens {
            fd,
            home: Home::Live,
            number,
            flags,
        },
        other => other,
    }
}

impl LiveWorld {
    ghost use Rattle.sn_live_world.specs.World.{IsOver, kept_of, tree_over};

    /// What was pending, with the next number for a new node: the least that no node has and that isn't kept back, or
    /// the least that no node has where there is no other. `None` where no number is left for what is to be made.
    ///
    /// Proved, also of `gives_kept`: A new node gets the number that the model chooses, and there is one wherever one is
    /// left.
    pub fn choose<'a>(&self, pending: Pending<'a>, caller: Caller) -> Option<Picked<'a>>
        ensures picked { (below : Tree) → IsOver self.now below → IfSome result (λ picked. Picks (tree_over self.now below) (kept_of self.now) pending.entry caller picked) }
        ensures opening { IfSome result (λ picked. is_opening picked.caller ≡ is_opening caller) }
        ensures left { (below : Tree) → IsOver self.now below → HasNumber (tree_over self.now below) pending.entry → is_some result ≡ true }
    {
        match pending {
            Pending::Nothing => Some(Picked {
                change: None,
                caller,
            }),
            pending => self.choose_any(pending, caller),
        }
    }

    // What `choose` answers, whatever is pending. Apart, since the room that it takes for a change is cleared at each call.
    fn choose_any<'a>(&self, pending: Pending<'a>, caller: Caller) -> Option<Picked<'a>>
        ensures picked { (below : Tree) → IsOver self.now below → IfSome result (λ picked. Picks (tree_over self.now below) (kept_of self.now) pending.entry caller picked) }
        ensures opening { IfSome result (λ picked. is_opening picked.caller ≡ is_opening caller) }
        ensures left { (below : Tree) → IsOver self.now below → HasNumber (tree_over self.now below) pending.entry → is_some result ≡ true }
    {
        match pending {
            Pending::Nothing => Some(Picked {
                change: None,
                caller,
            }),
            Pending::Makes {
                directory,
                name,
                kind,
                ownership,
            } => match self.live.next_number(&Limits::WRITTEN) {
                Some(number) => Some(Picked {
                    change: Some(Change::Make {
                        directory,
                        name,
                        number,
                        kind,
                        ownership,
                    }),
                    caller: with_number(caller, number),
                }),
                None => None,
            },
            Pending::Does(change) => Some(Picked {
                change: Some(change),
                caller,
            }),
        }
    }

    /// Whether a change gives a new node a number that is kept back: where no other is left.
    pub fn gives_kept(&self, change: &Change<'_>) -> bool
        ensures { result ≡ gives_kept change.now (kept_of self.now) }
    {
        match change {
            Change::Make { number, .. } => self.live.is_kept_back(*number),
            _ => false,
        }
    }
}
