//! Tests of cuts.
use crate::{Algorithm, Cut, cut};
use sds_base::NoMemory;
use std::alloc::Global;
use std::test::Fail;

/// The first change of each piece and how many it has.
fn pieces(alloc: Global, algorithm: Algorithm, max: u32, txs: &[u64]) -> Result<String, NoMemory> {
    let mut text = String::new(alloc);
    let cuts = cut(alloc, algorithm, max, txs)?;
    for piece in cuts.inner() {
        let Cut { first, count } = *piece;
        let said = format!(in alloc; "{first}+{count} ")?;
        text.push_str(said.as_str())?;
    }
    Ok(text)
}

#[test]
fn transactions_are_cut_by_algorithm(rt: HostRuntime) -> Result<(), Fail> {
    let txs: [u64; 6] = [1, 1, 2, 2, 2, 3];
    for (algorithm, count, due) in [
        (Algorithm::Default, 6, "0+5 5+1 "),
        (Algorithm::Nontransactional, 6, "0+3 3+3 "),
        (Algorithm::Transactional, 6, "0+2 2+3 5+1 "),
        (Algorithm::Default, 0, ""),
        (Algorithm::Nontransactional, 0, ""),
        (Algorithm::Transactional, 0, ""),
    ] {
        let said = pieces(rt.alloc(), algorithm, 3, &txs[..count])?;
        assert_eq!(rt; said.as_str(), due);
    }
    Ok(())
}

/// Whether a transaction ends before the change at a place.
fn ends_before(txs: &[u64], place: usize) -> bool {
    match (txs.get(place.saturating_sub(1)), txs.get(place)) {
        (Some(last), Some(next)) => last != next,
        _ => true,
    }
}

/// Whether a transaction ends inside of a piece where the piece has so many changes or more.
fn ends_inside(txs: &[u64], first: usize, end: usize, least: usize) -> bool {
    for place in first.saturating_add(1)..end {
        if ends_before(txs, place) && place.saturating_sub(first) >= least {
            return true;
        }
    }
    false
}

/// Whether the changes from one place up to another are a piece of the algorithm's.
fn is_piece(algorithm: Algorithm, max: usize, txs: &[u64], first: usize, end: usize) -> bool {
    let count = end.saturating_sub(first);
    let is_last = end >= txs.len();
    match algorithm {
        Algorithm::Default => {
            ends_before(txs, end) && !ends_inside(txs, first, end, max) && (is_last || count >= max)
        }
        Algorithm::Transactional => ends_before(txs, end) && !ends_inside(txs, first, end, 0),
        Algorithm::Nontransactional => count == max || (is_last && count < max),
    }
}

/// Whether the pieces are none of them empty, join to the changes, and are pieces of the
/// algorithm's.
fn is_cut(algorithm: Algorithm, max: u32, txs: &[u64], cuts: &[Cut]) -> bool {
    let mut first = 0usize;
    for piece in cuts {
        let end = first.saturating_add(piece.count as usize);
        if piece.count == 0
            || piece.first != first as u64
            || !is_piece(algorithm, max as usize, txs, first, end)
        {
            return false;
        }
        first = end;
    }
    first == txs.len()
}

/// So many changes, a new transaction where the number's binary digit is 1.
fn transactions(alloc: Global, count: usize, digits: u32) -> Result<Vec<u64>, NoMemory> {
    let mut txs = Vec::new(alloc);
    let mut left = digits;
    let mut tx = 1u64;
    for _place in 0..count {
        tx = tx.saturating_add((left % 2) as u64);
        left /= 2;
        txs.push(tx)?;
    }
    Ok(txs)
}

#[test]
fn every_short_list_is_cut(rt: HostRuntime) -> Result<(), Fail> {
    let alloc = rt.alloc();
    for count in 0..7usize {
        for digits in 0..64u32 {
            let txs = transactions(alloc, count, digits)?;
            for max in 1..5u32 {
                for algorithm in [
                    Algorithm::Default,
                    Algorithm::Transactional,
                    Algorithm::Nontransactional,
                ] {
                    let cuts = cut(alloc, algorithm, max, &txs)?;
                    assert!(rt;
                        is_cut(algorithm, max, &txs, cuts.inner()),
                        "{count} {digits} {max}"
                    );
                }
            }
        }
    }
    Ok(())
}
