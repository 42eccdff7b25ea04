//! Where the changes of a lane are cut into batches.
ghost use Rattle.std.specs.Prelude.{◌≡◌, IfOk, List, map};
ghost use Rattle.sds_types.specs.declared.row.Change.{Change};
ghost use Rattle.sds_trade.specs.rules.Cuts.{cuts_of};
ghost use Rattle.sds_batcher.specs.Ends.{ends_piece, ends_transaction};

use sds_base::{List, NoMemory};
use sds_types::{Algorithm, Cut};
use std::alloc::Global;

/// The pieces into which a lane's changes are cut, in a channel whose batches are full at `max`
/// changes (the SymmetricDS guide's chapter on channels). The changes are given by the numbers of
/// their transactions, and those of a transaction stand side by side.
///
/// - `Default`: a piece ends with the first transaction at whose end it is full.
/// - `Transactional`: a piece ends with each transaction.
/// - `Nontransactional`: a piece ends where it is full.
pub fn cut(
    alloc: Global,
    algorithm: Algorithm,
    max: u32,
    txs: &[u64],
) -> Result<List<Cut>, NoMemory>
    ensures { IfOk result (λ cuts. (changes : List Change)
        → map (λ (change : Change). change.tx) changes ≡ txs.now
        → cuts ≡ cuts_of algorithm max changes) }
{
    let mut cuts = Vec::new(alloc);
    let mut first = 0;
    let mut count = 0;
    for (place, tx) in txs.iter().enumerate() {
        count += 1;
        let next = txs.get(place + 1).copied();
        if !ends_piece(algorithm, max, count, *tx, next) {
            continue;
        }
        cuts.push(Cut { first, count })?;
        first += count;
        count = 0;
    }
    if count == 0 {
        return Ok(List::of(cuts));
    }
    cuts.push(Cut { first, count })?;
    Ok(List::of(cuts))
}

/// Whether a piece of this many changes ends with its last change, by that one's transaction and
/// the next change's.
pub(crate) fn ends_piece(
    algorithm: Algorithm,
    max: u32,
    count: u64,
    tx: u64,
    next: Option<u64>,
) -> bool
    ensures { result ≡ ends_piece algorithm max count tx next }
{
    match algorithm {
        Algorithm::Default => max as u64 <= count && ends_transaction(tx, next),
        Algorithm::Transactional => ends_transaction(tx, next),
        Algorithm::Nontransactional => max as u64 <= count,
    }
}

/// Whether a transaction ends before the next change.
fn ends_transaction(tx: u64, next: Option<u64>) -> bool
    ensures { result ≡ ends_transaction tx next }
{
    match next {
        Some(next) => tx != next,
        None => true,
    }
}
