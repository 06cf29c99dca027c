ghost use Rattle.std.specs.Prelude.{◌≡◌, ◌+◌, ◌-◌, ◌<◌, ◌^◌};
ghost use Rattle.std.specs.FinMap as map;
ghost use Rattle.sn_nodes.specs.Stored.{nodes_of, stored_of, counts_of, fewer_at};
ghost use Rattle.sn_plain.specs.Stored.{Clears, Moves};

use crate::linking::after_loss;
use sn_nodes::Nodes;

/// Takes a name of a directory from the number that has it, if one has: a file stays, an empty
/// directory goes. It hands on the first number that may be unused.
pub(crate) fn clear(nodes: &mut Nodes, first: u32, directory: u16, target: Option<u16>) -> u32
    ensures { Clears directory target nodes.old first nodes.new result }
{
    let Some(number) = target else {
        return first;
    };
    nodes.uncount_link(directory, number);
    if nodes.is_file(number) {
        return first;
    }
    nodes.remove(number);
    after_loss(first, number)
}

/// Counts a name in another directory than before.
pub(crate) fn move_link(nodes: &mut Nodes, from: u16, to: u16, number: u16)
    requires names { fewer_at from to (counts_of (map.get (stored_of nodes.old) to)).names + 1 < 2 ^ 64 }
    requires links { (counts_of (map.get (stored_of nodes.old) number)).links - 1 + 1 < 2 ^ 16 }
    ensures nodes { nodes_of nodes.new ≡ nodes_of nodes.old }
    ensures stored { Moves from to number (stored_of nodes.old) (stored_of nodes.new) }
{
    nodes.uncount_link(from, number);
    nodes.set_parent(number, to);
    nodes.count_link(to, number);
}
