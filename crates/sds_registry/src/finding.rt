//! How items of a node's lists are found.
ghost use Rattle.std.specs.Prelude.{◌≡◌, option_copied};
ghost use Rattle.std.specs.List.{find};
ghost use Rattle.std.specs.Str.{bytes_eq, chars, encode_utf8_all};
ghost use Rattle.sds_history.specs.history.Lanes.{is_lane};
ghost use Rattle.sds_history.specs.history.Openings.{opening_key, opening_of};
ghost use Rattle.sds_history.specs.history.Orders.{pair_key};
ghost use Rattle.sds_history.specs.history.Peers.{kept_peer};
ghost use Rattle.sds_history.specs.history.Writers.{writer_of};

use crate::orders::pair_order;
use sds_base::Txt;
use sds_types::{KeptPeer, LaneIn, Opening, WriterLast};

/// The peer of an id, where one is kept.
pub fn kept_peer<'a>(peers: &'a [KeptPeer], id: &str) -> Option<&'a KeptPeer>
    ensures { option_copied result ≡ kept_peer peers.now (chars id.now) }
{
    peers.iter().find(|kept| has_bytes(&kept.peer.id, id))
}

/// The opening of a group and an external id, where one stands, closed or not.
pub fn opening_of<'a>(openings: &'a [Opening], group: &str, external: &str) -> Option<&'a Opening>
    ensures { option_copied result ≡ opening_of openings.now (chars group.now)
        (chars external.now) }
{
    openings
        .iter()
        .find(|opening| is_opening(opening, group, external))
}

/// What is kept of a writer's last write, where it has written.
pub fn writer_of<'a>(writers: &'a [WriterLast], name: &str) -> Option<&'a WriterLast>
    ensures { option_copied result ≡ writer_of writers.now (chars name.now) }
{
    writers.iter().find(|last| has_bytes(&last.writer, name))
}

/// What is kept of a peer's lane in a channel, where something is.
pub fn kept_lane<'a>(lanes: &'a [LaneIn], peer: &str, channel: u32) -> Option<&'a LaneIn>
    ensures { option_copied result ≡ find (is_lane (chars peer.now) channel) lanes.now }
{
    lanes.iter().find(|lane| is_lane(lane, peer, channel))
}

/// Whether a name has the bytes of a text.
fn has_bytes(name: &Txt, text: &str) -> bool
    ensures { result ≡ bytes_eq (encode_utf8_all name.now)
        (encode_utf8_all (chars text.now)) }
{
    name.as_str() == text
}

/// Whether an opening is that of a group and an external id.
pub(crate) fn is_opening(opening: &Opening, group: &str, external: &str) -> bool
    ensures { result ≡ bytes_eq (opening_key opening.now)
        (pair_key (chars group.now) (chars external.now)) }
{
    pair_order(
        opening.group.as_str(),
        opening.external.as_str(),
        group,
        external,
    )
    .is_eq()
}

/// Whether a lane is that of a peer in a channel.
fn is_lane(lane: &LaneIn, peer: &str, channel: u32) -> bool
    ensures { result ≡ is_lane (chars peer.now) channel lane.now }
{
    lane.channel == channel && lane.peer.is(peer)
}
