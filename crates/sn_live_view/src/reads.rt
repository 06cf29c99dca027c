//! What is made of a look-up of the live tree.
ghost use Rattle.std.specs.Prelude.{◌≡◌, IsTrue, IfOk, IfErr};
ghost use Rattle.std.specs.Option.{option_and_then};
ghost use Rattle.sn_limits.specs.Versions.{limits_written};
ghost use Rattle.sn_walk.specs.Gives.{Gives, IfFault};
ghost use Rattle.sn_model.specs.Seen.{has_room_for_name};
ghost use Rattle.sn_overlay.specs.Seen.{seen_node};
ghost use Rattle.sn_walk.specs.Frame.{Leaves};

use sn_acl::Acl;
use sn_applies::NamedTree;
use sn_limits::Limits;
use sn_model::{Errno, Refusal};
use sn_walk::Failure;

/// The default ACL of the node that a number has, `None` where it has none, as a file, or where no node has the
/// number.
pub(crate) fn default_acl<T: NamedTree>(tree: &mut T, number: u16) -> Result<Option<Acl>, T::Fault>
    requires { T.holds tree.old }
    ensures left { Leaves T.holds T.follows T.is_told T.shows tree.old tree.new }
    ensures found { IsTrue T.is_told → IfOk result (λ a. a ≡ option_and_then (λ node. node.ownership.default_acl) (seen_node (T.shows tree.old) number)) }
    ensures cause { IfErr result (λ f. T.causes tree.old tree.new f) }
{
    match tree.node(number) {
        Ok(Some(node)) => Ok(node.ownership.default_acl),
        Ok(None) => Ok(None),
        Err(fault) => Err(fault),
    }
}

/// Whether a directory may get one more name, of a node that is there: ELIMIT where it has all the names that it
/// can have.
pub(crate) fn room_for_name<T: NamedTree>(
    tree: &mut T,
    directory: u16,
) -> Result<(), Failure<Refusal, T::Fault>>
    requires { T.holds tree.old }
    ensures left { Leaves T.holds T.follows T.is_told T.shows tree.old tree.new }
    ensures found { IsTrue T.is_told → Gives (λ u. u) result (has_room_for_name limits_written (T.shows tree.old) directory) }
    ensures cause { IfFault result (λ f. T.causes tree.old tree.new f) }
{
    match tree.names_in(directory) {
        Ok(names) => {
            if names < Limits::WRITTEN.names {
                return Ok(());
            }
            Err(Failure::Refused(Refusal::plain(Errno::Elimit)))
        }
        Err(fault) => Err(Failure::Fault(fault)),
    }
}
