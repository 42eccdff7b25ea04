// All that a source has, and all into a sink.
ghost use Rattle.std.specs.Prelude.{◌≡◌, ◌≤◌, ◌<◌, length, take, IfOk, OnOk, IsErrOf, true, false, ℕ};
ghost use Rattle.sds_outside.specs.Causes.{HasCause, Rose};
ghost use Rattle.sds_outside.specs.Told.{before_told, after_told, IsAtEnd};

use crate::{Failed, Sink, Source};
use sds_base::{Bytes, NoMemory};
use std::alloc::Global;

/// How many bytes are asked of a source at a time.
const PIECE: usize = 65_536;

/// What was read of a source.
#[derive(Debug, Drop)]
pub struct Whole {
    /// The bytes, all or a front.
    pub bytes: Bytes,
    /// Whether the source has more bytes than were asked for, so that `bytes` is a front alone.
    pub is_over: bool,
}

/// Why a source wasn't read.
#[derive(Clone, Copy, Debug, PartialEq, Eq)]
pub enum ReadStop {
    /// The source failed, and its count of faults rose.
    Fault,
    /// Memory was wanting.
    NoMemory,
}

impl From<NoMemory> for ReadStop {
    ghost use Rattle.sds_outside.specs.declared.transfer.ReadStop.TheVariants as stop;

    ghost from_gives = { λ _ e. e ≡ stop.NoMemory };

    fn from(_: NoMemory) -> ReadStop {
        ReadStop::NoMemory
    }
}

/// Reads a source to its end, or until it has given more than `limit` bytes.
pub fn read_all<S: Source>(alloc: Global, source: &mut S, limit: usize) -> Result<Whole, ReadStop>
    ensures all { IfOk result (λ whole. S.left source.old ≡ before_told whole.bytes (S.left source.new)) }
    ensures end { IfOk result (λ whole. whole.is_over ≡ false → IsAtEnd (S.left source.new)) }
    ensures within { IfOk result (λ whole. whole.is_over ≡ false → length whole.bytes ≤ limit) }
    ensures over { IfOk result (λ whole. whole.is_over ≡ true → limit < length whole.bytes) }
    ensures fault { IsErrOf result ReadStop.Fault → Rose (S.faults source.old) (S.faults source.new) }
    ensures later { S.faults source.old ≤ S.faults source.new }
{
    let mut bytes = Vec::new(alloc);
    let mut piece = blank_piece(alloc)?;
    let piece = piece.as_mut_slice();
    while bytes.len() <= limit {
        let count = match source.read(piece) {
            Ok(count) => count,
            Err(_) => return Err(ReadStop::Fault),
        };
        if count == 0 {
            return Ok(Whole {
                bytes: Bytes::of(bytes),
                is_over: false,
            });
        }
        if bytes.extend_from_slice(&piece[..count]).is_err() {
            return Err(ReadStop::NoMemory);
        }
    }
    Ok(Whole {
        bytes: Bytes::of(bytes),
        is_over: true,
    })
}

/// Room for a piece of what a source gives.
fn blank_piece(alloc: Global) -> Result<Vec<u8>, NoMemory>
    ensures { IfOk result (λ piece. length piece.items ≡ PIECE) }
{
    Ok(vec![in alloc; 0u8; PIECE]?)
}

/// Writes all these bytes into a sink. Whatever it answers, the sink has taken a front of them and nothing
/// else.
pub fn write_all<K: Sink>(sink: &mut K, bytes: &[u8]) -> Result<(), Failed>
    ensures all { OnOk result (K.taken sink.new ≡ after_told (K.taken sink.old) bytes.now) }
    ensures part { (n : ℕ) × (n ≤ length bytes.now) × (K.taken sink.new ≡ after_told (K.taken sink.old) (take n bytes.now)) }
    ensures cause { HasCause (K.faults sink.old) (K.faults sink.new) result }
{
    let mut at = 0;
    while at < bytes.len() {
        let (_, rest) = bytes.split_at(at);
        let count = sink.write(rest)?;
        at += count;
    }
    Ok(())
}
