//! What goes next to a peer of one channel.
ghost use Rattle.std.specs.Prelude.{◌≡◌, ◌++◌, ◌+◌, ◌≤◌, length, IfOk, OnOk, OnErr, Some};
ghost use Rattle.std.specs.Str.{chars};
ghost use Rattle.sds_batchtext.specs.Writing.{batch_text};
ghost use Rattle.sds_trade.specs.rules.Sound.{IsSound};
ghost use Rattle.sds_history.specs.history.Documents.{doc_of_batch};
ghost use Rattle.sds_history.specs.history.Messages as stated;
ghost use Rattle.sds_history.specs.history.SoundStates.{IsSoundState};
ghost use Rattle.sds_history.specs.history.Standings as standings;
ghost use Rattle.sds_image.specs.Meaning.{meaning_of};
ghost use Rattle.sds_outgoing.specs.Batches.{batch_of_number};
ghost use Rattle.sds_outgoing.specs.Offering.{is_waiting};
ghost use Rattle.sds_messages.specs.Closing.{closes_part};
ghost use Rattle.sds_messages.specs.Texts.{AreWritable, part_text};

use sds_base::NoMemory;
use sds_batchtext::put_batch;
use sds_image::State;
use sds_outgoing::doc;
use sds_types::limits::MOST_PART_BYTES;
use sds_types::{ChannelDef, Config, OutBatch, Standing};
use std::alloc::Global;

/// Writes the batches of a lane that go next, and returns how many they are.
pub(crate) fn put_part(
    alloc: Global,
    config: &Config,
    state: &State,
    to: &str,
    channel: u32,
    def: &ChannelDef,
    out: &mut Vec<u8>,
) -> Result<u64, NoMemory>
    requires config { IsSound config.now }
    requires state { IsSoundState config.now (meaning_of state.now) }
    requires writable { AreWritable config.now (meaning_of state.now) }
    ensures count { IfOk result (λ count. count ≡ (stated.part_of config.now
        (meaning_of state.now) (chars to.now) (channel, def.now)).count) }
    ensures text { OnOk result (out.new.items ≡ out.old.items
        ++ part_text config.now (meaning_of state.now) (chars to.now)
        (stated.part_of config.now (meaning_of state.now) (chars to.now) (channel, def.now))) }
    ensures room { IfOk result (λ count. length out.old.items + count ≤ length out.new.items) }
{
    let start = out.len();
    let mut count = 0;
    for batch in state.batches.inner() {
        if !is_waiting(batch, to, channel) {
            continue;
        }
        put_document(alloc, config, state, batch, out)?;
        count += 1;
        if closes_part(def.max_batch_to_send, count, out.len() - start, batch) {
            return Ok(count);
        }
    }
    Ok(count)
}

/// Writes a batch of the node as a document.
fn put_document(
    alloc: Global,
    config: &Config,
    state: &State,
    batch: &OutBatch,
    out: &mut Vec<u8>,
) -> Result<(), NoMemory>
    requires config { IsSound config.now }
    requires state { IsSoundState config.now (meaning_of state.now) }
    requires writable { AreWritable config.now (meaning_of state.now) }
    requires known { batch_of_number state.now.batches batch.now.id ≡ Some batch.now }
    ensures ok { OnOk result (out.new.items ≡ out.old.items
        ++ batch_text (doc_of_batch config.now (meaning_of state.now) batch.now)) }
    ensures err { OnErr result (out.new.items ≡ out.old.items) }
{
    let doc = doc(alloc, config, state, batch.id)?;
    put_batch(&doc, out)
}

/// Whether a batch is one of a lane that is not acknowledged.
fn is_waiting(batch: &OutBatch, to: &str, channel: u32) -> bool
    ensures { result ≡ is_waiting (chars to.now) channel batch.now }
{
    batch.channel == channel && batch.peer.is(to) && !is_acked(batch.standing)
}

/// Whether no batch goes after this one, which is that of a number, from 1, in its channel, where
/// the channel's text has so many bytes.
fn closes_part(most: u32, number: u64, bytes: usize, batch: &OutBatch) -> bool
    ensures { result ≡ closes_part most number bytes batch.now }
{
    (number == most as u64 || is_erred(batch.standing)) || MOST_PART_BYTES <= bytes
}

/// Whether a batch is acknowledged.
fn is_acked(standing: Standing) -> bool
    ensures { result ≡ standings.is_acked standing }
{
    matches!(standing, Standing::Acked)
}

/// Whether a batch is in error.
fn is_erred(standing: Standing) -> bool
    ensures { result ≡ standings.is_erred standing }
{
    matches!(standing, Standing::Erred { .. })
}
