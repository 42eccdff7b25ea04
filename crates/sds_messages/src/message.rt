//! The message that goes next to a peer.
ghost use Rattle.std.specs.Prelude.{◌≡◌, ◌++◌, ◌≤◌, ◌+◌, length, IfOk, OnOk};
ghost use Rattle.std.specs.Str.{chars};
ghost use Rattle.sds_types.specs.declared.channel.ChannelDef.{ChannelDef};
ghost use Rattle.sds_batchtext.specs.Writing.{head_text};
ghost use Rattle.sds_trade.specs.rules.Sound.{IsSound};
ghost use Rattle.sds_history.specs.history.Messages as stated;
ghost use Rattle.sds_history.specs.history.SoundStates.{IsSoundState};
ghost use Rattle.sds_history.specs.world.Sending.{batch_count};
ghost use Rattle.sds_image.specs.Meaning.{meaning_of};
ghost use Rattle.sds_messages.specs.Texts.{AreWritable, parts_text, written_message};

use crate::part::put_part;
use sds_base::NoMemory;
use sds_batcher::channels_in_order;
use sds_batchtext::put_head;
use sds_image::State;
use sds_types::Config;
use std::alloc::Global;

/// Writes the message that goes next to a peer, of these channels or of all where none is named:
/// one document of the node. Channel by channel in their order it has the batches that are not
/// acknowledged, from the first on, up to the first in error, up to as many as a message takes, and
/// up to the batch that brings the channel's text to 16 MiB. Returns how many batches it has (the
/// SymmetricDS guide's chapters on channels and outgoing batches; the 16 MiB are symds' own). Each
/// batch has a written form.
pub fn put_message(
    alloc: Global,
    config: &Config,
    state: &State,
    to: &str,
    channels: &[u32],
    out: &mut Vec<u8>,
) -> Result<u64, NoMemory>
    requires config { IsSound config.now }
    requires state { IsSoundState config.now (meaning_of state.now) }
    requires writable { AreWritable config.now (meaning_of state.now) }
    ensures count { IfOk result (λ count. count ≡ batch_count
        (stated.parts_of config.now (meaning_of state.now) (chars to.now) channels.now)) }
    ensures text { OnOk result (out.new.items ≡ out.old.items
        ++ written_message config.now (meaning_of state.now) (chars to.now) channels.now) }
{
    put_head(state.me.id.as_str(), out)?;
    put_parts(alloc, config, state, to, channels, out)
}

/// Writes what goes next of each channel, and returns how many batches that are.
fn put_parts(
    alloc: Global,
    config: &Config,
    state: &State,
    to: &str,
    channels: &[u32],
    out: &mut Vec<u8>,
) -> Result<u64, NoMemory>
    requires config { IsSound config.now }
    requires state { IsSoundState config.now (meaning_of state.now) }
    requires writable { AreWritable config.now (meaning_of state.now) }
    ensures count { IfOk result (λ count. count ≡ batch_count
        (stated.parts_of config.now (meaning_of state.now) (chars to.now) channels.now)) }
    ensures text { OnOk result (out.new.items ≡ out.old.items
        ++ parts_text config.now (meaning_of state.now) (chars to.now)
        (stated.parts_of config.now (meaning_of state.now) (chars to.now) channels.now)) }
{
    let sorted = channels_in_order(alloc, config.channels.inner())?;
    let mut count = 0;
    for (channel, def) in &sorted {
        if !is_wanted(channels, *channel) {
            continue;
        }
        count += put_part(alloc, config, state, to, *channel, *def, out)?;
    }
    Ok(count)
}

/// Whether the channel at a place is among these, or none is named.
fn is_wanted(channels: &[u32], channel: u32) -> bool
    ensures { (def : ChannelDef) → result ≡ stated.is_wanted channels.now (channel, def) }
{
    channels.is_empty() || channels.contains(&channel)
}
