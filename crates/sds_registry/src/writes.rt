//! What the number of a write decides, beside that of its writer's last.
ghost use Rattle.std.specs.Prelude.{◌≡◌, List, option_copied, unwrap_or};
ghost use Rattle.std.specs.Str.{chars};
ghost use Rattle.sds_types.specs.declared.config.Config.{Config};
ghost use Rattle.sds_types.specs.declared.tx_row.TxRow.{TxRow};
ghost use Rattle.sds_history.specs.history.Writers.{last_number, writer_of};
ghost use Rattle.sds_history.specs.history.Writes.{last_answer, next_answer, numbered_answer};
ghost use Rattle.sds_image.specs.Meaning.{meaning_of};

use crate::finding::writer_of;
use sds_image::State;
use sds_types::{WriteRefusal, WriterLast, Written};

/// The answer to a write whose number alone decides, and none where the write is its writer's next.
///
/// `OldNumber` where it is 0 or below the writer's last, the last write's answer again where it is
/// the last one's, and `GapNumber` where it is above the next one.
pub fn judge_number(
    state: &State,
    writer: &str,
    number: u64,
) -> Option<Result<Written, WriteRefusal>>
    ensures { (config : Config) → (rows : List TxRow)
        → numbered_answer config (meaning_of state.now) (chars writer.now) number rows
        (writer_of state.now.writers (chars writer.now))
        ≡ unwrap_or result
        (next_answer config (meaning_of state.now) (chars writer.now) number rows) }
{
    let kept = writer_of(state.writers.inner(), writer);
    let last = last_number(kept);
    if number == 0 || number < last {
        return Some(Err(WriteRefusal::OldNumber(last)));
    }
    if number == last {
        return Some(Ok(last_answer(kept)));
    }
    if last + 1 < number {
        return Some(Err(WriteRefusal::GapNumber(last)));
    }
    None
}

/// The number of a writer's last write, 0 before the first.
fn last_number(kept: Option<&WriterLast>) -> u64
    ensures { result ≡ last_number (option_copied kept.entry) }
{
    match kept {
        Some(last) => last.number,
        None => 0,
    }
}

/// The answer of a writer's last write, told again.
fn last_answer(kept: Option<&WriterLast>) -> Written
    ensures { result ≡ last_answer (option_copied kept.entry) }
{
    match kept {
        Some(last) => Written::Again {
            first: last.first,
            count: last.count,
        },
        None => Written::Again { first: 0, count: 0 },
    }
}
