//! What acks say of a batch.
ghost use Rattle.std.specs.Prelude.{◌≡◌, ◌∷◌, [], ◌==◌, ◌&&◌, not, option_copied};
ghost use Rattle.std.specs.List.{filter, find, list_any};
ghost use Rattle.std.specs.Str.{chars};
ghost use Rattle.sds_types.specs.declared.batch.OutBatch.{OutBatch};
ghost use Rattle.sds_history.specs.history.Acks.{same_standing};
ghost use Rattle.sds_history.specs.history.Acts.Act.{Acked};
ghost use Rattle.sds_history.specs.history.Standings as stated;
ghost use Rattle.sds_outgoing.specs.Told.{standing_told};

use sds_types::{Ack, OutBatch, Standing};

/// What is known of one of these batches after acks of a peer.
///
/// A batch that an ack says is loaded is acknowledged, and so are the earlier ones of its lane.
/// That is final. Else an error that was told of it counts, of several the first, and else what was
/// known before.
pub fn standing_after(batches: &[OutBatch], from: &str, acks: &[Ack], batch: &OutBatch) -> Standing
    ensures { result
        ≡ stated.standing_of batches.now (Acked (chars from.now) acks.now ∷ []) batch.now }
{
    if !batch.peer.is(from) {
        return batch.standing;
    }
    standing_told(batches, acks, batch)
}

/// What is known of a batch after acks of its peer.
fn standing_told(batches: &[OutBatch], acks: &[Ack], batch: &OutBatch) -> Standing
    ensures { result ≡ standing_told batches.now acks.now batch.now }
{
    if is_acked(batch.standing) || is_loaded(batches, acks, batch) {
        return Standing::Acked;
    }
    last_error(acks, batch)
}

/// Whether one of these acks says that a batch is loaded.
fn is_loaded(batches: &[OutBatch], acks: &[Ack], batch: &OutBatch) -> bool
    ensures { result ≡ list_any (stated.is_ok_for batches.now batch.now) acks.now }
{
    acks.iter().any(|ack| is_ok_for(batches, batch, ack))
}

/// What is known of a batch by the errors that acks tell of it, of which the first counts.
fn last_error(acks: &[Ack], batch: &OutBatch) -> Standing
    ensures { result ≡ stated.last_error (filter (stated.is_error_of batch.now) acks.now)
        batch.now.standing }
{
    match error_in(acks, batch) {
        Some(ack) => erred_by(ack.error, batch.standing),
        None => batch.standing,
    }
}

/// The first of these acks that says that a batch is in error.
fn error_in<'a>(acks: &'a [Ack], batch: &OutBatch) -> Option<&'a Ack>
    ensures { option_copied result ≡ find (stated.is_error_of batch.now) acks.now }
{
    acks.iter().find(|ack| is_error_of(batch, ack))
}

/// What is known of a batch by an ack's error.
fn erred_by(error: Option<(u32, u8)>, before: Standing) -> Standing
    ensures { result ≡ stated.erred_by error before }
{
    match error {
        Some((row, rule)) => Standing::Erred { row, rule },
        None => before,
    }
}

/// Whether an ack says that a batch is loaded, or a later one of its lane.
fn is_ok_for(batches: &[OutBatch], batch: &OutBatch, ack: &Ack) -> bool
    ensures { result ≡ stated.is_ok_for batches.now batch.now ack.now }
{
    ack.error.is_none() && batch.id <= ack.batch && has_in_lane(batches, batch, ack.batch)
}

/// Whether a batch of this number is of a batch's lane.
fn has_in_lane(batches: &[OutBatch], batch: &OutBatch, number: u64) -> bool
    ensures { result ≡ list_any
        (λ (other : OutBatch). other.id == number && stated.same_lane batch.now other) batches.now }
{
    batches
        .iter()
        .any(|other| other.id == number && is_same_lane(batch, other))
}

/// Whether two batches go to one peer in one channel.
fn is_same_lane(a: &OutBatch, b: &OutBatch) -> bool
    ensures { result ≡ stated.same_lane a.now b.now }
{
    a.channel == b.channel && a.peer == b.peer
}

/// Whether an ack says that a batch is in error.
fn is_error_of(batch: &OutBatch, ack: &Ack) -> bool
    ensures { result ≡ stated.is_error_of batch.now ack.now }
{
    ack.error.is_some() && ack.batch == batch.id
}

/// Whether a batch is acknowledged.
pub(crate) fn is_acked(standing: Standing) -> bool
    ensures { result ≡ stated.is_acked standing }
{
    matches!(standing, Standing::Acked)
}

/// Whether a batch is in error.
pub(crate) fn is_erred(standing: Standing) -> bool
    ensures { result ≡ stated.is_erred standing }
{
    matches!(standing, Standing::Erred { .. })
}

/// Whether what is known of a batch is another status, row or rule than before.
pub fn is_changed(before: Standing, after: Standing) -> bool
    ensures { result ≡ not (same_standing before after) }
{
    match (before, after) {
        (Standing::New, Standing::New) | (Standing::Acked, Standing::Acked) => false,
        (
            Standing::Erred { row, rule },
            Standing::Erred {
                row: other,
                rule: because,
            },
        ) => row != other || rule != because,
        _ => true,
    }
}
