//! Names and numbers among the fields of a line.
ghost use Rattle.std.specs.Prelude.{◌≡◌, IfOk};
ghost use Rattle.std.specs.Char.{is_ascii_digit};
ghost use Rattle.std.specs.List.{list_all};
ghost use Rattle.sds_value.specs.Names.{is_name_text};
ghost use Rattle.sds_scenario.specs.Words as said;
ghost use Rattle.sds_scenario.specs.Counted as counted;

use sds_base::{List, NoMemory, Txt};
use sds_value::{Field, is_name};
use std::alloc::Global;
use std::mem;

/// The most digits of a number.
const MOST_DIGITS: usize = 19;

/// The name that a field is, taken out of it.
pub(crate) fn take_name(field: &mut Field) -> Option<Txt>
    ensures { result ≡ said.as_name field.old }
{
    match mem::replace(field, Field::Null) {
        Field::Null => None,
        Field::Text(text) => named(text),
    }
}

/// The text, where it is a name.
fn named(text: Txt) -> Option<Txt>
    ensures { result ≡ said.name_if (is_name_text text) text }
{
    if is_name(text.as_str()) {
        Some(text)
    } else {
        None
    }
}

/// The names that the fields are, taken out of them, where each is one.
#[tactic(auto, using(crate::proofs::Names::after_none, crate::proofs::Names::after_one))]
pub(crate) fn take_names(alloc: Global, fields: &mut [Field]) -> Result<Option<List<Txt>>, NoMemory>
    ensures { IfOk result (λ names. names ≡ said.as_names fields.old) }
{
    let mut names = List::new(alloc);
    for field in fields.iter_mut() {
        let Some(name) = take_name(field) else {
            return Ok(None);
        };
        names.push(name)?;
    }
    Ok(Some(names))
}

/// The one name that the fields are, taken out of them.
pub(crate) fn one_name(fields: &mut [Field]) -> Option<Txt>
    ensures { result ≡ counted.one_name fields.old }
{
    let (name, others) = fields.split_first_mut()?;
    if !others.is_empty() {
        return None;
    }
    take_name(name)
}

/// The two names that the fields are, taken out of them.
pub(crate) fn two_names(fields: &mut [Field]) -> Option<(Txt, Txt)>
    ensures { result ≡ counted.two_names fields.old }
{
    let (first, others) = fields.split_first_mut()?;
    let first = take_name(first)?;
    let second = one_name(others)?;
    Some((first, second))
}

/// The three names that the fields are, taken out of them.
pub(crate) fn three_names(fields: &mut [Field]) -> Option<(Txt, Txt, Txt)>
    ensures { result ≡ counted.three_names fields.old }
{
    let (first, others) = fields.split_first_mut()?;
    let first = take_name(first)?;
    let (second, third) = two_names(others)?;
    Some((first, second, third))
}

/// The one number that the fields are.
pub(crate) fn one_number(fields: &[Field]) -> Option<u64>
    ensures { result ≡ counted.one_number fields.now }
{
    let [number] = fields else {
        return None;
    };
    number_in(number)
}

/// The number that a field writes in 1 to 19 decimal digits, which may begin with zeros.
pub(crate) fn number_in(field: &Field) -> Option<u64>
    ensures { result ≡ said.as_number field.now }
{
    match field {
        Field::Null => None,
        Field::Text(text) => read_number(text),
    }
}

fn read_number(text: &Txt) -> Option<u64>
    ensures { result ≡ said.number_if (said.is_digits text.now) text.now }
{
    read_digits(text.as_str())
}

fn read_digits(text: &str) -> Option<u64>
    ensures { result ≡ said.number_if (said.is_digits text.now) text.now }
{
    if !are_digits(text.as_bytes()) {
        return None;
    }
    text.parse().ok()
}

fn are_digits(bytes: &[u8]) -> bool
    ensures { result ≡ said.is_digits bytes.now }
{
    if bytes.is_empty() || bytes.len() > MOST_DIGITS {
        return false;
    }
    all_digits(bytes)
}

fn all_digits(bytes: &[u8]) -> bool
    ensures { result ≡ list_all is_ascii_digit bytes.now }
{
    bytes.iter().all(|byte| byte.is_ascii_digit())
}
