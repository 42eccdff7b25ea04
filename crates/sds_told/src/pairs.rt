//! What a pair of a reply says.
ghost use Rattle.std.specs.Prelude.{◌≡◌, ◌≤◌, IfSome};
ghost use Rattle.std.specs.List.{list_all};
ghost use Rattle.std.specs.Char.{is_ascii_digit};
ghost use Rattle.sds_told.specs.Replies as stated;

use sds_expressions::{behind, split_at};
use sds_types::Ack;
use sds_types::limits::MOST_COUNT;

/// The highest number of a rule on rows.
const MOST_RULE: u64 = 16;

/// The highest number of a row that is told.
const MOST_ROW: u64 = 4_294_967_295;

/// What a pair says of a batch; None where it has another form.
pub(crate) fn ack_said(name: &str, value: &str) -> Option<Ack>
    ensures { result ≡ stated.ack_of name.now value.now }
{
    let batch = batch_named(name)?;
    let error = error_told(value)?;
    Some(Ack { batch, error })
}

/// The number of the batch that a name names.
fn batch_named(name: &str) -> Option<u64>
    ensures { result ≡ stated.named_batch name.now }
{
    let number = behind(name, "batch-")?;
    number_in(1, MOST_COUNT, number)
}

/// Whether a value tells of an error, and of which.
fn error_told(value: &str) -> Option<Option<(u32, u8)>>
    ensures { result ≡ stated.told_error value.now }
{
    if value == "ok" {
        return Some(None);
    }
    let numbers = behind(value, "er.")?;
    let (row, rule) = split_at(numbers, '.')?;
    let error = error_in(row, rule)?;
    Some(Some(error))
}

/// The row and the rule that two texts write.
fn error_in(row: &str, rule: &str) -> Option<(u32, u8)>
    ensures { result ≡ stated.error_in (row.now, rule.now) }
{
    let row = number_in(0, MOST_ROW, row)?;
    let rule = number_in(1, MOST_RULE, rule)?;
    Some((row as u32, rule as u8))
}

/// The number that a text writes in decimal digits, where it lies from the least to the most.
fn number_in(least: u64, most: u64, text: &str) -> Option<u64>
    ensures number { result ≡ stated.number_in least most text.now }
    ensures bound { IfSome result (λ number. number ≤ most) }
{
    if !all_digits(text.as_bytes()) {
        return None;
    }
    match text.parse::<u64>() {
        Err(_) => None,
        Ok(number) => ranged(least, most, number),
    }
}

fn ranged(least: u64, most: u64, number: u64) -> Option<u64>
    ensures number { result ≡ stated.ranged least most number }
    ensures bound { IfSome result (λ number. number ≤ most) }
{
    if number < least || number > most {
        return None;
    }
    Some(number)
}

fn all_digits(bytes: &[u8]) -> bool
    ensures { result ≡ list_all is_ascii_digit bytes.now }
{
    bytes.iter().all(|byte| byte.is_ascii_digit())
}
