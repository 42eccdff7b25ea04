//! The lines of a document, read as they come.
ghost use Rattle.std.specs.Prelude.{◌≡◌, ◌+◌, ◌^◌, ◌<◌, ◌≤◌, ◌++◌, ℕ, List, Bool, false, Some, None, IfOk, length};
ghost use Rattle.sds_types.specs.declared.document.BatchDoc.{BatchDoc};
ghost use Rattle.sds_line.specs.Splitting.{is_finished, reach};
ghost use Rattle.sds_batchtext.specs.Reading.{IsReading, HasReadLines, IsFed};

use crate::Position;
use sds_base::NoMemory;
use sds_line::{LineRefusal, Lines};
use sds_types::{BatchDoc, DocumentCause, End};
use std::alloc::Global;
use std::collections::VecDeque;

/// Reads the lines that are whole, up to the first that may not stand, which is the answer.
pub(crate) fn read_lines(
    lines: &mut Lines,
    position: &mut Position,
    ready: &mut VecDeque<BatchDoc>,
) -> Result<Option<End>, NoMemory>
    requires { ∥ IsFed lines.old ∥₁ }
    ensures read { IfOk result (λ ending. (text : List ℕ) (taken : List BatchDoc) (finished : Bool)
        → IsReading text taken finished lines.old position.old ready.old.items
        → HasReadLines text taken finished ending lines.new position.new ready.new.items) }
    ensures fed { IfOk result (λ ending. ending ≡ None → ∥ IsFed lines.new ∥₁) }
    ensures phase { is_finished lines.old.phase ≡ false → is_finished lines.new.phase ≡ false }
    ensures reach { is_finished lines.old.phase ≡ false
        → reach lines.new.split ≡ reach lines.old.split }
{
    let alloc = *ready.allocator();
    loop {
        match lines.next() {
            Ok(None) => return Ok(None),
            Ok(Some(line)) => {
                let number = line.number;
                if let Some(cause) = position.take_line(alloc, line, ready)? {
                    return Ok(Some(End::Broken {
                        line: number,
                        cause,
                    }));
                }
            }
            Err(LineRefusal::NoMemory) => return Err(NoMemory),
            Err(_) => {
                return Ok(Some(End::Broken {
                    line: lines.number(),
                    cause: DocumentCause::BadLine,
                }));
            }
        }
    }
}
