//! Rehearsals of a scenario that is read from a source, and their screens.
ghost use Rattle.std.specs.Prelude.{◌≡◌, ◌≢◌, ◌≤◌, ◌==◌, ◌^◌, ℕ, true, false, not, Err, OnOk};
ghost use Rattle.std.specs.Prelude.{IfOk, IfSome, IsErrOf, IsSome, IsTrue, length, nat_lt, take};
ghost use Rattle.std.specs.List.{All, suffix_len};
ghost use Rattle.sds_line.specs.Splitting.{lines_in};
ghost use Rattle.sds_value.specs.Binaries.{are_bytes};
ghost use Rattle.sds_outside.specs.Causes.{Rose};
ghost use Rattle.sds_outside.specs.Told.{IsAtEnd, after_told};
ghost use Rattle.sds_types.specs.Limits.{most_input_bytes};
ghost use Rattle.sds_types.specs.declared.scenario.ScenarioCause as causes;
ghost use Rattle.sds_trade.specs.rules.Sound.{IsSound};
ghost use Rattle.sds_doclaws.specs.Writable.{HasFewKeys};
ghost use Rattle.sds_history.specs.world.InStep.{InStep};
ghost use Rattle.sds_nodelaws.specs.Asked.{is_noise};
ghost use Rattle.sds_screen.specs.Screen.{is_past_most, looked_at, through_last_feed};
ghost use Rattle.sds_screen.specs.WorldAt.{world_at};
ghost use Rattle.sds_world.specs.Reading.{IsRehearsed, ended};
ghost use Rattle.sds_world.specs.Told.{IsCause, Keeps, Shows};

use crate::Rehearsal;
use crate::play::Play;
use crate::text::{Played, Stop, play_text};
use sds_base::{Bytes, NoMemory};
use sds_outside::{MemKeeper, ReadStop, Sink, Source, read_all, write_all};
use sds_types::limits::MOST_INPUT_BYTES;
use sds_types::{Config, WorldRefusal};
use std::alloc::Global;

/// Plays a scenario under a configuration, writes what it prints, and hands back its nodes' keepers
/// in the order in which the nodes were made, or none where the reading failed or memory was
/// wanting.
///
/// A scenario's lines are those of fields, in quotes or plain. The input is read to its end before
/// anything is written, so that a reading that fails writes nothing. At the first line that the
/// scenario may not have, what stood before it is written, and nothing of that line. `noise` is what
/// registration makes its tokens of.
pub fn rehearse<I: Source, W: Sink>(
    alloc: Global,
    config: Config,
    input: &mut I,
    noise: [u8; 16],
    out: &mut W,
) -> (Result<(), WorldRefusal>, Vec<MemKeeper>)
    requires config { IsSound config }
    requires keys { All (HasFewKeys config) config.transforms }
    // What is answered and written is what the text of the input says.
    ensures shows { IfSome (I.left input.old) (λ text.
        Shows config noise text result.0 (W.taken out.old) (W.taken out.new)) }
    // The keepers keep what the nodes have after the lines that were played.
    ensures kept { IfSome (I.left input.old) (λ text.
        Keeps config noise text result.0 result.1.items) }
    // After each of its lines the nodes are in step.
    ensures in_step { IfSome (I.left input.old) (λ text. (n : ℕ)
        → InStep config (world_at config noise text n)) }
    ensures done { OnOk result.0 (IsAtEnd (I.left input.new)) }
    ensures read { result.0 ≡ Err WorldRefusal.ReadFault
        → Rose (I.faults input.old) (I.faults input.new) }
    ensures read_writes { result.0 ≡ Err WorldRefusal.ReadFault
        → W.taken out.new ≡ W.taken out.old }
    ensures write { result.0 ≡ Err WorldRefusal.WriteFault
        → Rose (W.faults out.old) (W.faults out.new) }
    ensures cause { (line : ℕ) (cause : causes.ScenarioCause)
        → result.0 ≡ Err (WorldRefusal.BadLine line cause) → IsCause cause }
{
    let read = match read_front(alloc, input) {
        Ok(read) => read,
        Err(ReadStop::Fault) => return (Err(WorldRefusal::ReadFault), Vec::new(alloc)),
        Err(ReadStop::NoMemory) => return (Err(WorldRefusal::NoMemory), Vec::new(alloc)),
    };
    let rehearsed = match rehearse_text(alloc, config, noise, &read.bytes, read.is_over) {
        Ok(rehearsed) => rehearsed,
        Err(NoMemory) => return (Err(WorldRefusal::NoMemory), Vec::new(alloc)),
    };
    let Rehearsed {
        screen,
        bad,
        keepers,
    } = rehearsed;
    (show(&screen, bad, out), keepers)
}

/// What a scenario that was played printed, the first line that it may not have, and the keepers of
/// its nodes.
#[derive(Drop)]
pub(crate) struct Rehearsed {
    pub(crate) screen: Vec<u8>,
    pub(crate) bad: Option<Stop>,
    pub(crate) keepers: Vec<MemKeeper>,
}

/// Plays what is looked at of a text, and closes the nodes.
fn rehearse_text(
    alloc: Global,
    config: Config,
    noise: [u8; 16],
    text: &[u8],
    is_over: bool,
) -> Result<Rehearsed, NoMemory>
    requires few { length text.now ≤ 2 ^ 30 }
    requires config { IsSound config }
    requires keys { All (HasFewKeys config) config.transforms }
    ensures ends { IfOk result (λ rehearsed. IsRehearsed config noise is_over
        (lines_in (not is_over) text.now) rehearsed) }
    ensures cause { IfOk result (λ rehearsed.
        IfSome rehearsed.bad (λ (b : Stop). IsCause b.cause)) }
    ensures over { IfOk result (λ rehearsed. is_over ≡ true → IsSome rehearsed.bad) }
{
    noise_is_noise(&noise);
    let Played { play, bad } = play_text(alloc, config, noise, text, is_over)?;
    let Play {
        rehearsal,
        screen,
        ..
    } = play;
    let Rehearsal { stage, .. } = rehearsal;
    let keepers = stage.close()?;
    Ok(Rehearsed {
        screen,
        bad,
        keepers,
    })
}

/// Sixteen bytes are a noise.
fn noise_is_noise(noise: &[u8; 16])
    ensures { IsTrue (is_noise noise.now) }
{
    bytes_are_bytes(noise.as_slice());
}

/// A byte is below 256.
fn bytes_are_bytes(bytes: &[u8])
    ensures { are_bytes bytes.now ≡ true }
{
    for byte in bytes {
        byte_is_byte(*byte);
    }
}

fn byte_is_byte(byte: u8)
    ensures { nat_lt byte 256 ≡ true }
{
    let _ = byte;
}

/// What is looked at of an input: all of it, or, where it has more than 1 GiB, what stands before
/// the line that holds the first byte too many.
#[derive(Drop)]
struct Front {
    bytes: Vec<u8>,
    is_over: bool,
}

/// Reads an input to its end, or to the first byte too many.
fn read_front<I: Source>(alloc: Global, input: &mut I) -> Result<Front, ReadStop>
    ensures front { IfOk result (λ read. IfSome (I.left input.old) (λ text.
        (read.bytes.items ≡ looked_at text) × (read.is_over ≡ is_past_most text))) }
    ensures few { IfOk result (λ read. length read.bytes.items ≤ 2 ^ 30) }
    ensures end { IfOk result (λ read. read.is_over ≡ false → IsAtEnd (I.left input.new)) }
    ensures fault { IsErrOf result ReadStop.Fault
        → Rose (I.faults input.old) (I.faults input.new) }
{
    let whole = read_all(alloc, input, MOST_INPUT_BYTES)?;
    if whole.is_over {
        return Ok(Front {
            bytes: cut_off(whole.bytes),
            is_over: true,
        });
    }
    Ok(Front {
        bytes: whole.bytes.into_inner(),
        is_over: false,
    })
}

/// The first 1 GiB, up to its last line feed and with it.
fn cut_off(bytes: Bytes) -> Vec<u8>
    ensures front { result.items ≡ through_last_feed (take most_input_bytes bytes) }
    ensures few { length result.items ≤ 2 ^ 30 }
{
    let mut bytes = bytes.into_inner();
    bytes.truncate(MOST_INPUT_BYTES);
    let kept = bytes.len() - behind_last_feed(&bytes);
    bytes.truncate(kept);
    bytes
}

/// How many bytes stand behind the last line feed.
fn behind_last_feed(bytes: &[u8]) -> usize
    ensures { result ≡ suffix_len (λ b. not (b == 10)) bytes.now }
{
    bytes
        .iter()
        .rev()
        .take_while(|byte| **byte != b'\n')
        .count()
}

/// Writes a screen, and answers how the rehearsal ended.
fn show<W: Sink>(screen: &[u8], bad: Option<Stop>, out: &mut W) -> Result<(), WorldRefusal>
    ensures ends { result ≢ Err WorldRefusal.WriteFault
        → (result ≡ ended bad) × (W.taken out.new ≡ after_told (W.taken out.old) screen.now) }
    ensures part { (n : ℕ) × ((n ≤ length screen.now)
        × (W.taken out.new ≡ after_told (W.taken out.old) (take n screen.now))) }
    ensures write { result ≡ Err WorldRefusal.WriteFault
        → Rose (W.faults out.old) (W.faults out.new) }
{
    if write_all(out, screen).is_err() {
        return Err(WorldRefusal::WriteFault);
    }
    end(bad)
}

/// The answer to a rehearsal that was read and written.
fn end(bad: Option<Stop>) -> Result<(), WorldRefusal>
    ensures { result ≡ ended bad }
{
    match bad {
        Some(Stop { line, cause }) => Err(WorldRefusal::BadLine { line, cause }),
        None => Ok(()),
    }
}
