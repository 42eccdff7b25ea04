//! The orders of a node's lists: items go by the bytes of their records' keys.
ghost use Rattle.std.specs.Prelude.{◌≡◌, ◌++◌, ℕ, List, codes};
ghost use Rattle.std.specs.Cmp.Lexicographic.{slice_cmp};
ghost use Rattle.std.specs.Ordering.{nat_cmp};
ghost use Rattle.std.specs.Str.{encode_utf8_all};
ghost use Rattle.sds_history.specs.history.Lanes as lanes;
ghost use Rattle.sds_history.specs.history.Lanes.{lane_key};
ghost use Rattle.sds_history.specs.history.Openings.{opening_key};
ghost use Rattle.sds_history.specs.history.Peers.{peer_key};
ghost use Rattle.sds_history.specs.history.Writers.{writer_key};

use sds_types::{Config, KeptPeer, LaneIn, Opening, WriterLast};
use std::cmp::Ordering;

/// An order of items by a key in bytes.
pub(crate) trait KeyOrder<T> {
    /// The key of an item.
    ghost key: { Self → T → List ℕ };

    /// The order of an item beside another, by their keys.
    fn compare(&self, a: &T, b: &T) -> Ordering
        ensures { result ≡ slice_cmp nat_cmp (key self.now a.now) (key self.now b.now) };
}

/// Peers by id.
#[derive(Drop)]
pub(crate) struct ByPeer;

impl KeyOrder<KeptPeer> for ByPeer {
    ghost key = { λ order kept. peer_key kept };

    fn compare(&self, a: &KeptPeer, b: &KeptPeer) -> Ordering {
        a.peer.id.as_str().cmp(b.peer.id.as_str())
    }
}

/// Writers by name.
#[derive(Drop)]
pub(crate) struct ByWriter;

impl KeyOrder<WriterLast> for ByWriter {
    ghost key = { λ order last. writer_key last };

    fn compare(&self, a: &WriterLast, b: &WriterLast) -> Ordering {
        a.writer.as_str().cmp(b.writer.as_str())
    }
}

/// Openings by group and external id.
#[derive(Drop)]
pub(crate) struct ByOpening;

impl KeyOrder<Opening> for ByOpening {
    ghost key = { λ order opening. opening_key opening };

    fn compare(&self, a: &Opening, b: &Opening) -> Ordering {
        pair_order(
            a.group.as_str(),
            a.external.as_str(),
            b.group.as_str(),
            b.external.as_str(),
        )
    }
}

/// Lanes by peer and the name of their channel.
#[derive(Drop)]
pub(crate) struct ByLane<'a> {
    /// The configuration, which has the channels' names.
    pub(crate) config: &'a Config,
}

impl<'a> KeyOrder<LaneIn> for ByLane<'a> {
    ghost key = { λ order lane. lane_key order.config.now lane };

    fn compare(&self, a: &LaneIn, b: &LaneIn) -> Ordering {
        pair_order(
            a.peer.as_str(),
            channel_name(self.config, a.channel),
            b.peer.as_str(),
            channel_name(self.config, b.channel),
        )
    }
}

/// The name of the channel at a place, which is empty where there is none.
fn channel_name(config: &Config, channel: u32) -> &str
    ensures { result.now ≡ encode_utf8_all (lanes.channel_name config.now channel) }
{
    match config.channels.inner().get(channel as usize) {
        Some(channel) => channel.id.as_str(),
        None => "",
    }
}

/// The order of a pair of texts beside another, each with a slash between its two.
pub(crate) fn pair_order(
    first: &str,
    second: &str,
    other_first: &str,
    other_second: &str,
) -> Ordering
    ensures { result ≡ slice_cmp nat_cmp (first.now ++ (codes "/" ++ second.now))
        (other_first.now ++ (codes "/" ++ other_second.now)) }
{
    let pair = first.bytes().chain("/".bytes().chain(second.bytes()));
    let other = other_first
        .bytes()
        .chain("/".bytes().chain(other_second.bytes()));
    pair.cmp(other)
}
