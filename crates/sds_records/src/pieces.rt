//! What a field of a record, or a piece of its key, tells.
ghost use Rattle.std.specs.Prelude.{◌≡◌, ◌==◌, ◌<◌, ◌++◌, ◌∷◌, ℕ, List, length, Some, true};
ghost use Rattle.std.specs.Prelude.{IfOk, IfSome, option_map, replicate, string_bytes};
ghost use Rattle.std.specs.Fmt.{decimal};
ghost use Rattle.std.specs.List.{position};
ghost use Rattle.std.specs.Str.{IsUtf8, encode_utf8_all};
ghost use Rattle.sds_value.specs.Names.{is_name_text};
ghost use Rattle.sds_types.specs.Rules.{number_of};
ghost use Rattle.sds_types.specs.declared.rule.Rule.{Rule};
ghost use Rattle.sds_history.specs.history.Orders.{pair_key};
ghost use Rattle.sds_history.specs.history.Records.{id_text, number_field};
ghost use Rattle.sds_records.specs.Told.{IsNarrow, IsWide};

use sds_base::{NoMemory, Txt};
use sds_types::Rule;
use sds_value::Field;
use std::alloc::Global;

/// The number that a text writes in decimal digits, which may begin with zeros.
fn number_written(text: &str) -> Option<u64>
    ensures { (zeros number : ℕ) → IsWide number
        → text.now ≡ replicate zeros 48 ++ decimal number → result ≡ Some number }
{
    match text.parse::<u64>() {
        Ok(number) => Some(number),
        Err(_) => None,
    }
}

/// The number that a field writes.
#[tactic(auto, using(crate::proofs::Numbers::plain_number))]
pub(crate) fn number_in(field: &Field) -> Option<u64>
    ensures { (number : ℕ) → IsWide number → field.now ≡ number_field number
        → result ≡ Some number }
{
    match field {
        Field::Null => None,
        Field::Text(text) => number_written(text.as_str()),
    }
}

/// The number of at most 32 bits that a field writes.
pub(crate) fn small_in(field: &Field) -> Option<u32>
    ensures { (number : ℕ) → IsNarrow number → field.now ≡ number_field number
        → result ≡ Some number }
{
    match number_in(field) {
        Some(number) => narrowed(number),
        None => None,
    }
}

/// The number of at most 8 bits that a field writes.
pub(crate) fn tiny_in(field: &Field) -> Option<u8>
    ensures { (number : ℕ) → number < 256 → field.now ≡ number_field number
        → result ≡ Some number }
{
    match number_in(field) {
        Some(number) => tiny(number),
        None => None,
    }
}

/// The rule whose number a field writes.
pub(crate) fn rule_in(field: &Field) -> Option<Rule>
    ensures { (rule : Rule) → field.now ≡ number_field (number_of rule) → result ≡ Some rule }
{
    match number_in(field) {
        Some(number) => rule_of(number),
        None => None,
    }
}

/// The place, where 32 bits hold it.
pub(crate) fn narrow(place: usize) -> Option<u32>
    ensures { IsNarrow place → result ≡ Some place }
{
    match u32::try_from(place) {
        Ok(place) => Some(place),
        Err(_) => None,
    }
}

/// The number, where 8 bits hold it.
fn tiny(number: u64) -> Option<u8>
    ensures { number < 256 → result ≡ Some number }
{
    match u8::try_from(number) {
        Ok(number) => Some(number),
        Err(_) => None,
    }
}

/// The number, where 32 bits hold it.
fn narrowed(number: u64) -> Option<u32>
    ensures { IsNarrow number → result ≡ Some number }
{
    match u32::try_from(number) {
        Ok(number) => Some(number),
        Err(_) => None,
    }
}

/// The text that bytes are in UTF-8.
fn text_of(alloc: Global, bytes: &[u8]) -> Result<Option<String>, NoMemory>
    ensures { IsUtf8 bytes.now
        → IfOk result (λ text. option_map string_bytes text ≡ Some bytes.now) }
{
    let mut copy = Vec::new(alloc);
    copy.extend_from_slice(bytes)?;
    match String::from_utf8(copy) {
        Ok(text) => Ok(Some(text)),
        Err(_) => Ok(None),
    }
}

/// The number that a key writes in 20 digits.
pub(crate) fn number_of_key(alloc: Global, bytes: &[u8]) -> Result<Option<u64>, NoMemory>
    ensures { (number : ℕ) → IsWide number → bytes.now ≡ id_text number
        → IfOk result (λ found. found ≡ Some number) }
{
    match text_of(alloc, bytes)? {
        Some(text) => Ok(number_written(&text)),
        None => Ok(None),
    }
}

/// The name that bytes write.
pub(crate) fn name_of(alloc: Global, bytes: &[u8]) -> Result<Option<Txt>, NoMemory>
    ensures { (name : List ℕ) → is_name_text name ≡ true → bytes.now ≡ encode_utf8_all name
        → IfOk result (λ found. found ≡ Some name) }
{
    match text_of(alloc, bytes)? {
        Some(text) => Ok(Some(Txt::of(text))),
        None => Ok(None),
    }
}

/// The place of the first slash.
fn slash_at(bytes: &[u8]) -> Option<usize>
    ensures place { result ≡ position (λ (byte : ℕ). byte == 47) bytes.now }
    ensures within { IfSome result (λ at. at < length bytes.now) }
{
    bytes.iter().position(|byte| *byte == b'/')
}

/// What stands before the first slash, and what stands after it.
pub(crate) fn divided(bytes: &[u8]) -> Option<(&[u8], &[u8])>
    ensures { (name rest : List ℕ) → is_name_text name ≡ true
        → bytes.now ≡ encode_utf8_all name ++ 47 ∷ rest
        → option_map {U = List ℕ × List ℕ} (λ parts. (parts.0.now, parts.1.now)) result
        ≡ Some (encode_utf8_all name, rest) }
{
    match slash_at(bytes) {
        Some(at) => Some((&bytes[..at], &bytes[at + 1..])),
        None => None,
    }
}

/// Two names with a slash between them.
#[derive(Debug, Drop)]
pub(crate) struct Pair {
    pub(crate) first: Txt,
    pub(crate) second: Txt,
}

/// The names before and after the first slash.
pub(crate) fn pair_of(alloc: Global, bytes: &[u8]) -> Result<Option<Pair>, NoMemory>
    ensures { (first second : List ℕ) → is_name_text first ≡ true → is_name_text second ≡ true
        → bytes.now ≡ pair_key first second
        → IfOk result (λ found. found ≡ Some (record { first = first; second = second })) }
{
    let Some((first, second)) = divided(bytes) else {
        return Ok(None);
    };
    let (Some(first), Some(second)) = (name_of(alloc, first)?, name_of(alloc, second)?) else {
        return Ok(None);
    };
    Ok(Some(Pair { first, second }))
}

/// The rule of a number.
fn rule_of(number: u64) -> Option<Rule>
    ensures { (rule : Rule) → number ≡ number_of rule → result ≡ Some rule }
{
    match number {
        1 => Some(Rule::UnknownTable),
        2 => Some(Rule::UnknownColumn),
        3 => Some(Rule::MissingKey),
        4 => Some(Rule::BadValue),
        5 => Some(Rule::TooLong),
        6 => Some(Rule::NullNotAllowed),
        7 => Some(Rule::DuplicateKey),
        8 => Some(Rule::RowMissing),
        9 => Some(Rule::MissingParent),
        10 => Some(Rule::HasChildren),
        11 => Some(Rule::TableFull),
        12 => Some(Rule::ManualConflict),
        13 => Some(Rule::OldMissing),
        14 => Some(Rule::SumOutOfRange),
        15 => Some(Rule::CaptureFull),
        16 => Some(Rule::UnknownChannel),
        _ => None,
    }
}
