//! A program that measures symds: how fast documents are written and read, rows of an own write are
//! made, a batch is loaded, and changes are routed. Without words it reads the worked documents and
//! does a little of what it measures, and prints what came of it, the same each time; with a number
//! of megabytes it does so much of it, a write of as many rows as one may have, the load of a batch
//! of 10,000 rows and a routing run of 10,000 changes, and prints milliseconds, megabytes, rows and
//! changes a second.
#![tactic(auto)]

ghost use Rattle.std.specs.Prelude.{◌≤◌, IfOk};

mod cases;
mod listing;
mod loading;
mod measures;
mod routing;
mod sample;
#[cfg(test)]
mod tests;
mod writes;

use cases::differing;
use listing::Listing;
use loading::{MOST_BATCH_ROWS, load_rows};
use measures::{Measured, read_batches, write_batches};
use sample::batch;
use sds_types::limits::MOST_WRITE_ROWS;
use std::alloc::Global;
use std::rt::{Clock, Env, Files};
use std::time::Instant;
use std::{env, fs, io};
use writes::write_rows;

/// Rows of the batch that is written and read: its text has some 64 KiB.
const ROWS: usize = 2_000;

/// The batches of a run without words.
const FEW: u64 = 2;

/// The rows of the own write, and of the batch that is loaded, of a run without words.
const FEW_ROWS: u32 = 100;

/// The bytes of a megabyte, and those that a batch has at the least.
const MEGABYTE: u64 = 1_000_000;

/// How many megabytes are asked for, if any are.
fn megabytes<R: Env + Alloc<A = Global>>(rt: &R) -> io::Result<Option<u64>> {
    for word in env::args(rt)?.skip(1) {
        if let Ok(number) = word.as_str().parse::<u64>() {
            return Ok(Some(number.min(10_000)));
        }
    }
    Ok(None)
}

fn main(rt: HostRuntime) -> io::Result<()> {
    let asked = megabytes(&rt)?;
    if asked.is_none() {
        let text = fs::read(&rt, "documents")?;
        let (count, differ) = differing(rt.alloc(), text.as_slice()).map_err(|_| none())?;
        println!(rt; "documents {count}, {differ} differ")?;
    }
    let turns = asked
        .unwrap_or(0)
        .saturating_mul(MEGABYTE / 64_000)
        .max(FEW)
        .min(1_000_000);
    let start = Instant::now(&rt)?;
    let written = write_batches(rt.alloc(), ROWS, turns).map_err(|_| none())?;
    tell(&rt, "written", &written, start, asked.is_some())?;
    let start = Instant::now(&rt)?;
    let read = read_batches(rt.alloc(), ROWS, turns).map_err(|_| none())?;
    tell(&rt, "read", &read, start, asked.is_some())?;
    tell_write(&rt, asked.is_some())?;
    tell_load(&rt, asked.is_some())?;
    routing::measure(&rt, asked.is_some())
}

/// Loads a batch, each of whose rows has a reference, and tells of it.
fn tell_load<R: Print + Clock + Alloc<A = Global>>(rt: &R, is_timed: bool) -> io::Result<()> {
    let count = if is_timed { MOST_BATCH_ROWS } else { FEW_ROWS };
    let start = Instant::now(rt)?;
    let rows = load_rows(rt.alloc(), count).map_err(|_| none())?;
    if !is_timed {
        return println!(rt; "load {rows} rows");
    }
    let millis = millis_since(rt, start)?;
    let speed = u64::from(rows).saturating_mul(1_000) / millis;
    println!(rt; "load {rows} rows in {millis} ms, {speed} rows/s")
}

/// Makes an own write, each of whose rows has a reference, and tells of it.
fn tell_write<R: Print + Clock + Alloc<A = Global>>(rt: &R, is_timed: bool) -> io::Result<()> {
    let count = if is_timed {
        MOST_WRITE_ROWS as u32
    } else {
        FEW_ROWS
    };
    let start = Instant::now(rt)?;
    let rows = write_rows(rt.alloc(), count).map_err(|_| none())?;
    if !is_timed {
        return println!(rt; "own write {rows} rows");
    }
    let millis = millis_since(rt, start)?;
    let speed = u64::from(rows).saturating_mul(1_000) / millis;
    println!(rt; "own write {rows} rows in {millis} ms, {speed} rows/s")
}

/// The milliseconds since a moment, at least 1.
fn millis_since<R: Clock>(rt: &R, start: Instant) -> io::Result<u64>
    ensures { IfOk result (λ millis. 1 ≤ millis) }
{
    let elapsed = start.elapsed(rt)?;
    Ok(
        elapsed
            .as_secs()
            .saturating_mul(1_000)
            .saturating_add(u64::from(elapsed.subsec_millis()))
            .max(1),
    )
}

/// Out of memory, as an error of input or output.
fn none() -> io::Error {
    io::Error::from(io::ErrorKind::OutOfMemory)
}

fn tell<R: Print + Clock>(
    rt: &R,
    what: &str,
    measured: &Measured,
    start: Instant,
    is_timed: bool,
) -> io::Result<()> {
    let Measured { rows, bytes } = *measured;
    if !is_timed {
        return println!(rt; "{what} {rows} rows, {bytes} bytes");
    }
    let millis = millis_since(rt, start)?;
    let speed = bytes / 1_000 / millis;
    println!(rt; "{what} {rows} rows, {bytes} bytes in {millis} ms, {speed} MB/s")
}
