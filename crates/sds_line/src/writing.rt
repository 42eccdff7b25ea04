#![tactic(auto, using(crate::proofs::Fronts::extends_same, crate::proofs::Fronts::extends_by, crate::proofs::Fronts::extends_if, crate::proofs::Fronts::extends_then))]

ghost use Rattle.std.specs.Prelude.{◌≡◌, List, ℕ, OnOk, OnErr, ◌++◌, ◌∷◌, []};
ghost use Rattle.sds_line.specs.Written.{written_line, written_field, further_fields, escaped, Extends};

use sds_base::NoMemory;
use sds_value::Field;

/// Puts the written form of a line behind `out`, without a line feed: the fields, divided by commas, null as nothing
/// and a text in quotes, with a backslash before each quote and each backslash. Where memory is wanting, `out` stays
/// as it was. The form is symds' own.
pub fn put_fields(fields: &[Field], out: &mut Vec<u8>) -> Result<(), NoMemory>
    ensures ok { OnOk result (out.new.items ≡ out.old.items ++ written_line fields.now) }
    ensures err { OnErr result (out.new.items ≡ out.old.items) }
{
    let start = out.len();
    let answer = put_line(fields, out);
    if answer.is_err() {
        out.truncate(start);
    }
    answer
}

fn put_line(fields: &[Field], out: &mut Vec<u8>) -> Result<(), NoMemory>
    ensures ok { OnOk result (out.new.items ≡ out.old.items ++ written_line fields.now) }
    ensures front { Extends out.old.items out.new.items }
{
    match fields {
        [] => Ok(()),
        [first, others @ ..] => {
            put_field(first, out)?;
            put_further(others, out)
        }
    }
}

fn put_further(fields: &[Field], out: &mut Vec<u8>) -> Result<(), NoMemory>
    ensures ok { OnOk result (out.new.items ≡ out.old.items ++ further_fields fields.now) }
    ensures front { Extends out.old.items out.new.items }
{
    for field in fields {
        put_next(field, out)?;
    }
    Ok(())
}

fn put_next(field: &Field, out: &mut Vec<u8>) -> Result<(), NoMemory>
    ensures ok { OnOk result ((rest : List ℕ) → out.new.items ++ rest ≡ out.old.items ++ 44 ∷ (written_field field.now ++ rest)) }
    ensures front { Extends out.old.items out.new.items }
{
    put_byte(b',', out)?;
    put_field(field, out)
}

fn put_field(field: &Field, out: &mut Vec<u8>) -> Result<(), NoMemory>
    ensures ok { OnOk result (out.new.items ≡ out.old.items ++ written_field field.now) }
    ensures front { Extends out.old.items out.new.items }
{
    match field {
        Field::Null => Ok(()),
        Field::Text(text) => put_quoted(text.as_str().as_bytes(), out),
    }
}

fn put_quoted(bytes: &[u8], out: &mut Vec<u8>) -> Result<(), NoMemory>
    ensures ok { OnOk result (out.new.items ≡ out.old.items ++ 34 ∷ (escaped bytes.now ++ 34 ∷ [])) }
    ensures front { Extends out.old.items out.new.items }
{
    put_byte(b'"', out)?;
    put_escaped(bytes, out)?;
    put_byte(b'"', out)
}

fn put_escaped(bytes: &[u8], out: &mut Vec<u8>) -> Result<(), NoMemory>
    ensures ok { OnOk result (out.new.items ≡ out.old.items ++ escaped bytes.now) }
    ensures front { Extends out.old.items out.new.items }
{
    for byte in bytes {
        put_inside(*byte, out)?;
    }
    Ok(())
}

/// Puts a byte of a text that stands in quotes.
fn put_inside(byte: u8, out: &mut Vec<u8>) -> Result<(), NoMemory>
    ensures ok { OnOk result ((rest : List ℕ) → out.new.items ++ escaped rest ≡ out.old.items ++ escaped (byte ∷ rest)) }
    ensures front { Extends out.old.items out.new.items }
{
    if byte == b'"' || byte == b'\\' {
        put_byte(b'\\', out)?;
    }
    put_byte(byte, out)
}

fn put_byte(byte: u8, out: &mut Vec<u8>) -> Result<(), NoMemory>
    ensures ok { OnOk result (out.new.items ≡ out.old.items ++ byte ∷ []) }
    ensures err { OnErr result (out.new.items ≡ out.old.items) }
    ensures front { Extends out.old.items out.new.items }
{
    out.push(byte)?;
    Ok(())
}
