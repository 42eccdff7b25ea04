//! The list of a node's batches as a person sees it.
#![tactic(auto, using(sds_line::proofs::Fronts::extends_same, sds_line::proofs::Fronts::extends_by, sds_line::proofs::Fronts::extends_if, sds_line::proofs::Fronts::extends_then))]

ghost use Rattle.std.specs.Prelude.{◌≡◌, ◌++◌, List, OnOk, OnErr, map, option_copied};
ghost use Rattle.std.specs.List.{cons_option, flat_map};
ghost use Rattle.sds_batcher.specs.Order.{entry_of};
ghost use Rattle.sds_line.specs.Written.{Extends};
ghost use Rattle.sds_types.specs.declared.lane.LaneIn as kept;
ghost use Rattle.sds_trade.specs.rules.Batches as rules;
ghost use Rattle.sds_image.specs.Meaning.{meaning_of};
ghost use Rattle.sds_screen.specs.Listed as stated;

use crate::lines::{in_line, out_line};
use sds_base::NoMemory;
use sds_batcher::channels_in_order;
use sds_image::State;
use sds_registry::kept_lane;
use sds_types::{ChannelDef, Config, KeptPeer, LaneIn, OutBatch};
use std::alloc::Global;

/// Puts the list of a node's batches, each as a line of words (the form is symds' own).
///
/// First come the outgoing batches, by number: the word `out`, the batch's number, peer, channel,
/// count of changes and status (`NE`, `ER` or `OK`), and for an error the number of its row, from
/// 1, and of the rule. Then come the lanes that something was loaded from, by peer, and those of a
/// peer in the order of channels: the word `in`, the lane's peer, channel, highest batch and status
/// (`OK`, `IG` where that batch was ignored, or a dash before the first), and where the lane is in
/// error the word `held` with the batch, its row and the rule. Out of memory leaves `out` as it
/// was.
pub fn put_batches(
    alloc: Global,
    config: &Config,
    state: &State,
    out: &mut Vec<u8>,
) -> Result<(), NoMemory>
    ensures ok { OnOk result (out.new.items
        ≡ out.old.items ++ stated.batches_text config.now (meaning_of state.now)) }
    ensures err { OnErr result (out.new.items ≡ out.old.items) }
{
    let start = out.len();
    let answer = put_all(alloc, config, state, out);
    if answer.is_err() {
        out.truncate(start);
    }
    answer
}

/// Puts the outgoing batches, then the lanes.
fn put_all(alloc: Global, config: &Config, state: &State, out: &mut Vec<u8>) -> Result<(), NoMemory>
    ensures ok { OnOk result (out.new.items
        ≡ out.old.items ++ stated.batches_text config.now (meaning_of state.now)) }
    ensures front { Extends out.old.items out.new.items }
{
    put_outgoing(alloc, config, state.batches.inner(), out)?;
    put_lanes(alloc, config, state, out)
}

/// Puts the lines of outgoing batches.
fn put_outgoing(
    alloc: Global,
    config: &Config,
    batches: &[OutBatch],
    out: &mut Vec<u8>,
) -> Result<(), NoMemory>
    ensures ok { OnOk result (out.new.items
        ≡ out.old.items ++ flat_map (stated.out_line config.now) batches.now) }
    ensures front { Extends out.old.items out.new.items }
{
    for batch in batches {
        let line = out_line(alloc, config, batch)?;
        out.extend_from_slice(line.as_bytes())?;
    }
    Ok(())
}

/// Puts the lines of lanes, peer by peer.
fn put_lanes(
    alloc: Global,
    config: &Config,
    state: &State,
    out: &mut Vec<u8>,
) -> Result<(), NoMemory>
    ensures ok { OnOk result (out.new.items ≡ out.old.items
        ++ flat_map (stated.in_line config.now)
        (stated.lanes_in_order config.now (meaning_of state.now))) }
    ensures front { Extends out.old.items out.new.items }
{
    let channels = channels_in_order(alloc, config.channels.inner())?;
    for kept in state.peers.inner() {
        put_peer_lanes(alloc, config, state, kept, &channels, out)?;
    }
    Ok(())
}

/// Puts the lines of a peer's lanes, in the order of channels.
fn put_peer_lanes(
    alloc: Global,
    config: &Config,
    state: &State,
    kept: &KeptPeer,
    channels: &[(u32, &ChannelDef)],
    out: &mut Vec<u8>,
) -> Result<(), NoMemory>
    requires { map entry_of channels.now ≡ rules.channels_in_order config.now }
    ensures ok { OnOk result (out.new.items ≡ out.old.items
        ++ flat_map (stated.in_line config.now)
        (stated.lanes_of_peer config.now (meaning_of state.now) kept.now)) }
    ensures front { Extends out.old.items out.new.items }
{
    for (channel, _) in channels {
        let lane = kept_lane(state.lanes.inner(), kept.peer.id.as_str(), *channel);
        put_lane(alloc, config, lane, out)?;
    }
    Ok(())
}

/// Puts the line of a lane, where something is kept of it.
fn put_lane(
    alloc: Global,
    config: &Config,
    lane: Option<&LaneIn>,
    out: &mut Vec<u8>,
) -> Result<(), NoMemory>
    ensures ok { OnOk result ((rest : List kept.LaneIn)
        → out.new.items ++ flat_map (stated.in_line config.now) rest
        ≡ out.old.items ++ flat_map (stated.in_line config.now)
        (cons_option (option_copied lane.entry) rest)) }
    ensures front { Extends out.old.items out.new.items }
{
    let Some(lane) = lane else {
        return Ok(());
    };
    let line = in_line(alloc, config, lane)?;
    out.extend_from_slice(line.as_bytes())?;
    Ok(())
}
