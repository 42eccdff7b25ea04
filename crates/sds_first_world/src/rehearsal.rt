ghost use Rattle.std.specs.Prelude.{◌≡◌, ◌≢◌, ◌≤◌, ◌==◌, ◌^◌, [], ℕ, List, Bool, true, false, not, Err, OnOk, IfOk, IfSome, IsErrOf, length, take};
ghost use Rattle.std.specs.List.{suffix_len};
ghost use Rattle.sds_outside.specs.Causes.{Rose};
ghost use Rattle.sds_outside.specs.Told.{IsAtEnd, after_told};
ghost use Rattle.sds_first_spec.specs.Happens.{world_after};
ghost use Rattle.sds_first_spec.specs.InStep.{InStep};
ghost use Rattle.sds_first_spec.specs.One.{one};
ghost use Rattle.sds_first_spec.specs.World.{empty_world};
ghost use Rattle.sds_first_world.specs.Played.{most_bytes, is_long, through_last_feed, looked_at, IsCause, events_of, ending, Shows};

use crate::fixed::one;
use crate::game::{Played, play_text};
use sds_base::{Bytes, NoMemory, Same};
use sds_outside::{MemKeeper, ReadStop, Sink, Source, read_all, write_all};
use sds_types::Config;
use std::alloc::Global;

/// How many bytes a scenario may have: 1 GiB.
const MOST_BYTES: usize = 1 << 30;

/// Why a rehearsal ended before its scenario did.
#[derive(Clone, Copy, Debug, PartialEq, Eq)]
pub enum WorldRefusal {
    /// The input failed.
    ReadFault,
    /// The output failed.
    WriteFault,
    /// The first line, from 1, that the scenario may not have, and why: 1 for a line that is of no line's form (its bytes are
    /// no fields), 4 for the end inside a write, at the line behind the last, 5 for the line of the first byte past 1 GiB, 6
    /// for a line that isn't built. What stood before it was printed.
    BadLine { line: u64, cause: u8 },
    NoMemory,
}

/// The line, from 1, at which a scenario is refused, and the cause.
#[derive(Clone, Copy, Debug, PartialEq, Eq)]
pub struct BadLine {
    pub line: u64,
    pub cause: u8,
}

/// Plays a scenario and writes what it prints, and hands back its nodes' keepers, of which there are none yet.
///
/// A scenario's lines are those of fields, in quotes or plain. The input is read to its end before anything is written, so
/// that a reading that fails writes nothing. At the first line that the scenario may not have, what stood before it is
/// written, and nothing of that line. Lines are built under the one configuration [`one`] alone; under another one the first
/// line that has fields may not stand. `noise` is what registration will make its tokens of.
pub fn rehearse<I: Source, W: Sink>(
    alloc: Global,
    config: &Config,
    input: &mut I,
    noise: [u8; 16],
    out: &mut W,
) -> (Result<(), WorldRefusal>, Vec<MemKeeper>)
    // What is answered and written is what the text of the input says.
    ensures shows { config.now ≡ one → IfSome (I.left input.old) (λ text. Shows true text result.0 (W.taken out.old) (W.taken out.new)) }
    ensures unbuilt { config.now ≢ one → IfSome (I.left input.old) (λ text. Shows false text result.0 (W.taken out.old) (W.taken out.new)) }
    // After each of its events the nodes are in step.
    ensures in_step { IfSome (I.left input.old) (λ text. (is_built : Bool) (n : ℕ) → InStep one (world_after one empty_world (take n (events_of is_built text)))) }
    ensures done { OnOk result.0 (IsAtEnd (I.left input.new)) }
    ensures read { result.0 ≡ Err WorldRefusal.ReadFault → Rose (I.faults input.old) (I.faults input.new) }
    ensures read_writes { result.0 ≡ Err WorldRefusal.ReadFault → W.taken out.new ≡ W.taken out.old }
    ensures write { result.0 ≡ Err WorldRefusal.WriteFault → Rose (W.faults out.old) (W.faults out.new) }
    ensures cause { (line cause : ℕ) → result.0 ≡ Err (WorldRefusal.BadLine line cause) → IsCause cause }
    ensures keepers { result.1.items ≡ [] }
{
    let _ = noise;
    let Ok(built) = one(alloc) else {
        return (Err(WorldRefusal::NoMemory), Vec::new(alloc));
    };
    let is_built = config.same(&built);
    (play(alloc, is_built, input, out), Vec::new(alloc))
}

/// After each event of each scenario the nodes of the world are in step: each writer's numbers are 1, 2, 3 and so on; what a
/// node loaded of a lane is a front of what was made, each batch once; a batch known to be loaded is; and each change that a
/// routing run took stands in exactly the batches to the peers that its routers named.
pub fn scenarios_stay_in_step()
    ensures { (is_built : Bool) (text : List ℕ) (n : ℕ) → InStep one (world_after one empty_world (take n (events_of is_built text))) }
{}

/// Reads the input, plays it, and writes what it prints.
fn play<I: Source, W: Sink>(
    alloc: Global,
    is_built: bool,
    input: &mut I,
    out: &mut W,
) -> Result<(), WorldRefusal>
    ensures shows { IfSome (I.left input.old) (λ text. Shows is_built text result (W.taken out.old) (W.taken out.new)) }
    ensures done { OnOk result (IsAtEnd (I.left input.new)) }
    ensures read { result ≡ Err WorldRefusal.ReadFault → Rose (I.faults input.old) (I.faults input.new) }
    ensures read_writes { result ≡ Err WorldRefusal.ReadFault → W.taken out.new ≡ W.taken out.old }
    ensures write { result ≡ Err WorldRefusal.WriteFault → Rose (W.faults out.old) (W.faults out.new) }
    ensures cause { (line cause : ℕ) → result ≡ Err (WorldRefusal.BadLine line cause) → IsCause cause }
{
    let read = match read_front(alloc, input) {
        Ok(read) => read,
        Err(ReadStop::Fault) => return Err(WorldRefusal::ReadFault),
        Err(ReadStop::NoMemory) => return Err(WorldRefusal::NoMemory),
    };
    let played = match play_text(alloc, is_built, &read.bytes, read.is_over) {
        Ok(played) => played,
        Err(NoMemory) => return Err(WorldRefusal::NoMemory),
    };
    show(played, out)
}

/// What is looked at of an input: all of it, or, where it has more than 1 GiB, what stands before the line that holds the
/// first byte too many.
#[derive(Drop)]
struct Front {
    bytes: Vec<u8>,
    is_over: bool,
}

/// Reads an input to its end, or to the first byte too many.
fn read_front<I: Source>(alloc: Global, input: &mut I) -> Result<Front, ReadStop>
    ensures front { IfOk result (λ read. IfSome (I.left input.old) (λ text. (read.bytes.items ≡ looked_at text) × (read.is_over ≡ is_long text))) }
    ensures few { IfOk result (λ read. length read.bytes.items ≤ 2 ^ 30) }
    ensures end { IfOk result (λ read. read.is_over ≡ false → IsAtEnd (I.left input.new)) }
    ensures fault { IsErrOf result ReadStop.Fault → Rose (I.faults input.old) (I.faults input.new) }
{
    let whole = read_all(alloc, input, MOST_BYTES)?;
    if whole.is_over {
        return Ok(Front {
            bytes: cut_off(whole.bytes),
            is_over: true,
        });
    }
    Ok(Front {
        bytes: whole.bytes.into_inner(),
        is_over: false,
    })
}

/// The first 1 GiB, up to its last line feed and with it.
fn cut_off(bytes: Bytes) -> Vec<u8>
    ensures front { result.items ≡ through_last_feed (take most_bytes bytes) }
    ensures few { length result.items ≤ 2 ^ 30 }
{
    let mut bytes = bytes.into_inner();
    bytes.truncate(MOST_BYTES);
    let kept = bytes.len() - behind_last_feed(&bytes);
    bytes.truncate(kept);
    bytes
}

/// How many bytes stand behind the last line feed.
fn behind_last_feed(bytes: &[u8]) -> usize
    ensures { result ≡ suffix_len (λ b. not (b == 10)) bytes.now }
{
    bytes
        .iter()
        .rev()
        .take_while(|byte| **byte != b'\n')
        .count()
}

/// Writes the screen of what was played, and answers how it ended.
fn show<W: Sink>(played: Played, out: &mut W) -> Result<(), WorldRefusal>
    ensures ends { result ≢ Err WorldRefusal.WriteFault → (result ≡ ending played.bad) × (W.taken out.new ≡ after_told (W.taken out.old) played.screen.items) }
    ensures part { (n : ℕ) × ((n ≤ length played.screen.items) × (W.taken out.new ≡ after_told (W.taken out.old) (take n played.screen.items))) }
    ensures write { result ≡ Err WorldRefusal.WriteFault → Rose (W.faults out.old) (W.faults out.new) }
{
    if write_all(out, &played.screen).is_err() {
        return Err(WorldRefusal::WriteFault);
    }
    end(played.bad)
}

/// The answer to a rehearsal that was read and written.
fn end(bad: Option<BadLine>) -> Result<(), WorldRefusal>
    ensures { result ≡ ending bad }
{
    match bad {
        Some(BadLine { line, cause }) => Err(WorldRefusal::BadLine { line, cause }),
        None => Ok(()),
    }
}
