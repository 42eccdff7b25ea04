//! Documents with what each gives, worked out by an independent model.
ghost use Rattle.std.specs.Prelude.{◌≤◌, ◌+◌, ◌<◌, ◌^◌, length};

use crate::Listing;
use sds_base::NoMemory;
use sds_batchtext::Reader;
use std::alloc::Global;

/// What stands after each document and after each list of what is due: a byte that UTF-8 lacks.
const MARK: u8 = 0xFE;

/// The bytes before the next mark, and those after it.
fn until_mark(bytes: &[u8]) -> (&[u8], &[u8])
    ensures { length result.0.now ≤ length bytes.now }
{
    let place = bytes
        .iter()
        .position(|byte| *byte == MARK)
        .unwrap_or(bytes.len());
    let (front, later) = bytes.split_at(place.min(bytes.len()));
    match later {
        [] => (front, later),
        [_, others @ ..] => (front, others),
    }
}

/// How many documents there are, and how many of them give something else than is due.
pub(crate) fn differing(alloc: Global, cases: &[u8]) -> Result<(u32, u32), NoMemory> {
    let mut rest = cases;
    let mut count = 0u32;
    let mut differ = 0u32;
    for _turn in 0..100_000 {
        if rest.is_empty() {
            break;
        }
        let (text, others) = until_mark(rest);
        let (due, later) = until_mark(others);
        count = count.saturating_add(1);
        if listed(alloc, text)?.as_slice() != due {
            differ = differ.saturating_add(1);
        }
        rest = later;
    }
    Ok((count, differ))
}

/// What a document gives, line by line.
fn listed(alloc: Global, text: &[u8]) -> Result<Vec<u8>, NoMemory> {
    let mut listing = Listing::new(alloc);
    if text.len() > 1_000_000 {
        return Ok(listing.into_text());
    }
    let mut reader = Reader::new(alloc);
    reader.feed(text)?;
    listing.put_batches(&mut reader)?;
    listing.put_end(&mut reader)?;
    Ok(listing.into_text())
}
