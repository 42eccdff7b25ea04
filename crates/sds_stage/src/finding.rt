//! The places of nodes by their ids.
ghost use Rattle.std.specs.Prelude.{◌≡◌, MatchOption};
ghost use Rattle.std.specs.List.{position};
ghost use Rattle.std.specs.Str.{chars};
ghost use Rattle.sds_stage.specs.Placed.{IsNowhere, IsPlaced, is_called};

use sds_node::Node;
use sds_outside::MemKeeper;

/// The place of the node of an id.
pub(crate) fn place_in(nodes: &[Node<MemKeeper>], id: &str) -> Option<usize>
    ensures { MatchOption result (IsNowhere (chars id.now) nodes.now) (IsPlaced (chars id.now) nodes.now) }
{
    first_place(nodes, id)
}

fn first_place(nodes: &[Node<MemKeeper>], id: &str) -> Option<usize>
    ensures { result ≡ position (is_called (chars id.now)) nodes.now }
{
    nodes.iter().position(|node| node.me().id.is(id))
}
