//! What is measured.
ghost use Rattle.std.specs.Prelude.{◌≡◌, ◌<◌, ◌≤◌, ◌+◌, ◌*◌, ◌^◌, length};

use crate::batch;
use sds_base::NoMemory;
use sds_batchtext::{Reader, put_batch, put_head};
use std::alloc::Global;

/// How much was written or read.
#[derive(Clone, Copy, Debug)]
pub(crate) struct Measured {
    pub(crate) rows: u64,
    pub(crate) bytes: u64,
}

/// Writes a batch of so many inserts so many times.
#[tactic(auto, using(crate::proofs::Samples::writable_by))]
pub(crate) fn write_batches(alloc: Global, rows: usize, turns: u64) -> Result<Measured, NoMemory> {
    let batch = batch(alloc, rows)?;
    let mut measured = Measured { rows: 0, bytes: 0 };
    let mut text = Vec::new(alloc);
    for _turn in 0..turns {
        text.clear();
        put_batch(&batch, &mut text)?;
        measured.rows = measured
            .rows
            .saturating_add(batch.rows.inner().len() as u64);
        measured.bytes = measured.bytes.saturating_add(text.len() as u64);
    }
    Ok(measured)
}

/// Reads a document with a batch of so many inserts so many times, each fed as one piece.
#[tactic(auto, using(crate::proofs::Samples::writable_by))]
pub(crate) fn read_batches(alloc: Global, rows: usize, turns: u64) -> Result<Measured, NoMemory>
    requires { turns ≤ 1000000 }
{
    let mut head = Vec::new(alloc);
    put_head("s1", &mut head)?;
    let mut text = Vec::new(alloc);
    put_batch(&batch(alloc, rows)?, &mut text)?;
    let mut measured = Measured { rows: 0, bytes: 0 };
    if head.len() > 1_000_000 || text.len() > 1_000_000 {
        return Ok(measured);
    }
    let mut reader = Reader::new(alloc);
    reader.feed(head.as_slice())?;
    for _turn in 0..turns {
        reader.feed(text.as_slice())?;
        measured.bytes = measured.bytes.saturating_add(text.len() as u64);
        if let Some(batch) = reader.take()? {
            measured.rows = measured
                .rows
                .saturating_add(batch.rows.inner().len() as u64);
        }
    }
    Ok(measured)
}
