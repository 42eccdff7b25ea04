//! How batches, changes and peers are found.
ghost use Rattle.std.specs.Prelude.{◌≡◌, ◌==◌, option_copied};
ghost use Rattle.std.specs.List.{find};
ghost use Rattle.std.specs.Str.{bytes_eq, encode_utf8_all};
ghost use Rattle.sds_types.specs.declared.row.Change as kept;
ghost use Rattle.sds_history.specs.history.Peers.{kept_peer};
ghost use Rattle.sds_outgoing.specs.Batches.{batch_of_number};

use sds_base::Txt;
use sds_types::{Change, KeptPeer, OutBatch};

/// The batch of a number, where one stands.
pub(crate) fn batch_of_number(batches: &[OutBatch], number: u64) -> Option<&OutBatch>
    ensures { option_copied result ≡ batch_of_number batches.now number }
{
    batches.iter().find(|batch| batch.id == number)
}

/// The change of a number, where one is kept.
pub(crate) fn change_of_number(changes: &[Change], number: u64) -> Option<&Change>
    ensures { option_copied result
        ≡ find (λ (change : kept.Change). change.id == number) changes.now }
{
    changes.iter().find(|change| change.id == number)
}

/// The peer of an id, where one is kept.
pub(crate) fn kept_peer<'a>(peers: &'a [KeptPeer], id: &Txt) -> Option<&'a KeptPeer>
    ensures { option_copied result ≡ kept_peer peers.now id.now }
{
    peers.iter().find(|kept| has_bytes(&kept.peer.id, id))
}

/// Whether two names have the same bytes.
fn has_bytes(name: &Txt, other: &Txt) -> bool
    ensures { result ≡ bytes_eq (encode_utf8_all name.now) (encode_utf8_all other.now) }
{
    name.as_str() == other.as_str()
}
