//! Which batches the acks of a peer name.
ghost use Rattle.std.specs.Prelude.{◌≡◌, ◌==◌, ◌&&◌, option_map};
ghost use Rattle.std.specs.Str.{bytes_eq, chars};
ghost use Rattle.sds_types.specs.declared.ack.Ack.{Ack};
ghost use Rattle.sds_history.specs.history.Acks as heard;
ghost use Rattle.sds_image.specs.Meaning.{meaning_of};

use sds_image::State;
use sds_types::{Ack, OutBatch};

/// The batch of the first ack that names no batch of this node to the peer that sent the acks.
pub fn unknown_ack(state: &State, from: &str, acks: &[Ack]) -> Option<u64>
    ensures { result ≡ option_map (λ (ack : Ack). ack.batch)
        (heard.unknown_ack (meaning_of state.now) (chars from.now) acks.now) }
{
    let unknown = acks.iter().find(|ack| !names_batch(state, from, ack))?;
    Some(unknown.batch)
}

/// Whether an ack names a batch of this node to a peer.
fn names_batch(state: &State, from: &str, ack: &Ack) -> bool
    ensures { result ≡ heard.names_batch (meaning_of state.now) (chars from.now) ack.now }
{
    state
        .batches
        .inner()
        .iter()
        .any(|batch| is_named(batch, from, ack))
}

/// Whether an ack of a peer names this batch.
fn is_named(batch: &OutBatch, from: &str, ack: &Ack) -> bool
    ensures { result ≡ (batch.now.id == ack.now.batch && bytes_eq batch.now.peer (chars from.now)) }
{
    batch.id == ack.batch && batch.peer.is(from)
}
