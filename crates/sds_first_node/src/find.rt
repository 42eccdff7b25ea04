// Looking up what a node keeps, and putting it in its place.
ghost use Rattle.std.specs.Prelude.{◌≡◌, ◌<◌, ◌≤◌, ◌+◌, ◌^◌, ◌&&◌, ◌==◌, IsTrue, IfSome, IfNone, MatchOption, Some, None, false, true, length, drop, vec_len, vec_capacity, codes};
ghost use Rattle.std.specs.Str.{bytes_eq, chars};
ghost use Rattle.sds_first_spec.specs.Kept.{writer_in, with_writer, is_lane, highest_in, with_lane};
ghost use Rattle.sds_first_spec.specs.Tables.{same_value};
ghost use Rattle.sds_first_spec.specs.Calls.{may_add};
ghost use Rattle.sds_first_node.specs.Finding.{IsNoWriter, IsWriterAt, IsNoLane, IsLaneAt};

use sds_base::Txt;
use sds_types::{LaneIn, WriterLast};
use sds_value::Value;

/// Where a counter ends.
pub(crate) const LAST: u64 = 1 << 62;

/// Whether a counter may go on by so many.
pub(crate) fn may_add(counter: u64, more: u64) -> bool
    ensures { result ≡ may_add counter more }
{
    counter <= LAST && more <= LAST - counter
}

/// Whether two values are the same.
pub(crate) fn same_value(a: &Value, b: &Value) -> bool
    ensures { result ≡ same_value a.now b.now }
{
    match (a, b) {
        (Value::Null, Value::Null) => true,
        (Value::Integer(a), Value::Integer(b)) => *a == *b,
        (Value::Decimal(a), Value::Decimal(b)) => *a == *b,
        (Value::Text(a), Value::Text(b)) => *a == *b,
        (Value::Stamp { day, nano }, Value::Stamp { day: d, nano: n }) => *day == *d && *nano == *n,
        (Value::Bin(a), Value::Bin(b)) => a.inner() == b.inner(),
        _ => false,
    }
}

/// The place of what is kept of a writer.
pub(crate) fn writer_place(lasts: &[WriterLast], writer: &str) -> Option<usize>
    ensures { MatchOption result (IsNoWriter (chars writer.now) lasts.now) (IsWriterAt (chars writer.now) lasts.now) }
{
    for (place, last) in lasts.iter().enumerate() {
        if last.writer.is(writer) {
            return Some(place);
        }
    }
    None
}

/// Puts a writer's last write into the list, which has room for one more.
pub(crate) fn put_writer(lasts: &mut Vec<WriterLast>, new: WriterLast)
    requires { vec_len lasts.old < vec_capacity lasts.old }
    ensures { lasts.new.items ≡ with_writer new lasts.old.items }
{
    match writer_place(lasts, new.writer.as_str()) {
        Some(place) => lasts[place] = new,
        None => lasts.push(new).unwrap(),
    }
}

/// The place of what is kept of a lane.
pub(crate) fn lane_place(lanes: &[LaneIn], peer: &str, channel: u32) -> Option<usize>
    ensures { MatchOption result (IsNoLane (chars peer.now) channel lanes.now) (IsLaneAt (chars peer.now) channel lanes.now) }
{
    for (place, lane) in lanes.iter().enumerate() {
        if lane.peer.is(peer) && lane.channel == channel {
            return Some(place);
        }
    }
    None
}

/// Puts what is kept of a lane into the list, which has room for one more.
pub(crate) fn put_lane(lanes: &mut Vec<LaneIn>, new: LaneIn)
    requires { vec_len lanes.old < vec_capacity lanes.old }
    ensures { lanes.new.items ≡ with_lane new lanes.old.items }
{
    match lane_place(lanes, new.peer.as_str(), new.channel) {
        Some(place) => lanes[place] = new,
        None => lanes.push(new).unwrap(),
    }
}

/// The highest batch loaded from a peer in a channel, or 0.
pub(crate) fn highest_in(lanes: &[LaneIn], peer: &str, channel: u32) -> u64
    ensures { result ≡ highest_in (chars peer.now) channel lanes.now }
{
    for lane in lanes {
        if lane.peer.is(peer) && lane.channel == channel {
            return lane.highest;
        }
    }
    0
}

/// Whether a group is the one whose nodes capture and send.
pub(crate) fn is_corp(group: &Txt) -> bool
    ensures { result ≡ bytes_eq group.now (codes "corp") }
{
    group.is("corp")
}

/// Whether a group is the one whose nodes receive.
pub(crate) fn is_store(group: &Txt) -> bool
    ensures { result ≡ bytes_eq group.now (codes "store") }
{
    group.is("store")
}
