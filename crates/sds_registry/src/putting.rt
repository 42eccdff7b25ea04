//! How items are put into a node's lists: in the place of the one that has their key, or where the
//! order has them.
ghost use Rattle.std.specs.Prelude.{◌≡◌, ◌<◌, MatchResult, vec_len, vec_capacity};
ghost use Rattle.sds_history.specs.history.Lanes.{lane_key};
ghost use Rattle.sds_history.specs.history.Openings.{opening_key};
ghost use Rattle.sds_history.specs.history.Orders.{with_item};
ghost use Rattle.sds_history.specs.history.Peers.{peer_key};
ghost use Rattle.sds_history.specs.history.SoundParts.{AscendBy};
ghost use Rattle.sds_history.specs.history.Writers.{writer_key};
ghost use Rattle.sds_registry.specs.Places.{BelongsAt, StandsAt};

use crate::orders::{ByLane, ByOpening, ByPeer, ByWriter, KeyOrder};
use sds_types::{Config, KeptPeer, LaneIn, Opening, WriterLast};

/// Puts a peer in, in the place of the one that has its id. There is room for one more.
pub fn put_peer(peers: &mut Vec<KeptPeer>, kept: KeptPeer)
    requires order { AscendBy peer_key peers.old.items }
    requires room { vec_len peers.old < vec_capacity peers.old }
    ensures items { peers.new.items ≡ with_item peer_key kept peers.old.items }
    ensures order { AscendBy peer_key peers.new.items }
{
    put_item(&ByPeer, peers, kept)
}

/// Puts an opening in, in the place of the one that has its group and external id. There is room
/// for one more.
pub fn put_opening(openings: &mut Vec<Opening>, opening: Opening)
    requires order { AscendBy opening_key openings.old.items }
    requires room { vec_len openings.old < vec_capacity openings.old }
    ensures items { openings.new.items ≡ with_item opening_key opening openings.old.items }
    ensures order { AscendBy opening_key openings.new.items }
{
    put_item(&ByOpening, openings, opening)
}

/// Puts a writer's last write in, in the place of the one that it had. There is room for one more.
pub fn put_writer(writers: &mut Vec<WriterLast>, last: WriterLast)
    requires order { AscendBy writer_key writers.old.items }
    requires room { vec_len writers.old < vec_capacity writers.old }
    ensures items { writers.new.items ≡ with_item writer_key last writers.old.items }
    ensures order { AscendBy writer_key writers.new.items }
{
    put_item(&ByWriter, writers, last)
}

/// Puts a lane in, in the place of the one that has its peer and the name of its channel. There is
/// room for one more.
pub fn put_lane(config: &Config, lanes: &mut Vec<LaneIn>, lane: LaneIn)
    requires order { AscendBy (lane_key config.now) lanes.old.items }
    requires room { vec_len lanes.old < vec_capacity lanes.old }
    ensures items { lanes.new.items ≡ with_item (lane_key config.now) lane lanes.old.items }
    ensures order { AscendBy (lane_key config.now) lanes.new.items }
{
    put_item(&ByLane { config }, lanes, lane)
}

/// Puts an item in, in the place of the one that has its key, or where the order has it. There is
/// room for one more.
fn put_item<T: Drop, K: KeyOrder<T>>(order: &K, items: &mut Vec<T>, new: T)
    requires order { AscendBy (K.key order.now) items.old.items }
    requires room { vec_len items.old < vec_capacity items.old }
    ensures items { items.new.items ≡ with_item (K.key order.now) new items.old.items }
    ensures order { AscendBy (K.key order.now) items.new.items }
{
    match place_of(order, items, &new) {
        Ok(at) => items[at] = new,
        Err(at) => items.insert(at, new).unwrap(),
    }
}

/// Where the item with the key of this one stands, or where it would.
fn place_of<T, K: KeyOrder<T>>(order: &K, items: &[T], new: &T) -> Result<usize, usize>
    requires { AscendBy (K.key order.now) items.now }
    ensures { MatchResult result
        (StandsAt (K.key order.now) (K.key order.now new.now) items.now)
        (BelongsAt (K.key order.now) (K.key order.now new.now) items.now) }
{
    items.binary_search_by(|item| order.compare(item, new))
}
