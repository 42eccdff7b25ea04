//! The written form of documents.
#![tactic(auto, using(crate::proofs::Fronts::extends_same, crate::proofs::Fronts::extends_by, crate::proofs::Fronts::extends_if, crate::proofs::Fronts::extends_then, crate::proofs::Fronts::text_append))]

ghost use Rattle.std.specs.Prelude.{◌≡◌, List, ℕ, OnOk, OnErr, IsTrue, ◌++◌, ◌∷◌, [], codes};
ghost use Rattle.std.specs.Fmt.{decimal};
ghost use Rattle.std.specs.Str.{chars, encode_utf8_all};
ghost use Rattle.sds_line.specs.Written.{Extends, written_line};
ghost use Rattle.sds_value.specs.Names.{is_name_text};
ghost use Rattle.sds_batchtext.specs.Writable.{is_writable};
ghost use Rattle.sds_batchtext.specs.Writing as stated;

use sds_base::{List, NoMemory, Same, Txt};
use sds_line::put_fields;
use sds_types::BatchDoc;
use sds_value::{DocRow, Event, Field};

/// Puts the lines with which the document of a node begins: its node, and that bytes are written in
/// base64. Out of memory leaves `out` as it was. The form is that of the SymmetricDS guide's
/// appendix on the CSV data format.
pub fn put_head(node: &str, out: &mut Vec<u8>) -> Result<(), NoMemory>
    requires { IsTrue (is_name_text (chars node.now)) }
    ensures ok { OnOk result (out.new.items ≡ out.old.items ++ stated.head_text (chars node.now)) }
    ensures err { OnErr result (out.new.items ≡ out.old.items) }
{
    let start = out.len();
    let answer = put_head_lines(node.as_bytes(), out);
    if answer.is_err() {
        out.truncate(start);
    }
    answer
}

fn put_head_lines(node: &[u8], out: &mut Vec<u8>) -> Result<(), NoMemory>
    ensures ok { OnOk result (out.new.items ≡ out.old.items ++ (codes "nodeid," ++ (node.now
        ++ codes "\nbinary,BASE64\n"))) }
    ensures front { Extends out.old.items out.new.items }
{
    put(b"nodeid,", out)?;
    put(node, out)?;
    put(b"\nbinary,BASE64\n", out)
}

/// Puts a batch: its channel and its id, its rows, and its end. A row's table, keys and columns
/// stand before it where they aren't those of the row before. Out of memory leaves `out` as it was.
/// The batch's bytes are in base64, its id is 1 to 2^62, its channel, tables, keys and columns are
/// names, each row has the values that its event asks for, and no written line has more than
/// 1,048,576 bytes.
pub fn put_batch(batch: &BatchDoc, out: &mut Vec<u8>) -> Result<(), NoMemory>
    requires { IsTrue (is_writable batch.now) }
    ensures ok { OnOk result (out.new.items ≡ out.old.items ++ stated.batch_text batch.now) }
    ensures err { OnErr result (out.new.items ≡ out.old.items) }
{
    let start = out.len();
    let answer = put_whole_batch(batch, out);
    if answer.is_err() {
        out.truncate(start);
    }
    answer
}

fn put_whole_batch(batch: &BatchDoc, out: &mut Vec<u8>) -> Result<(), NoMemory>
    ensures ok { OnOk result (out.new.items ≡ out.old.items ++ stated.batch_text batch.now) }
    ensures front { Extends out.old.items out.new.items }
{
    put_name(b"channel,", &batch.channel, out)?;
    put_number(b"batch,", batch.batch, out)?;
    put_rows(batch.rows.inner().as_slice(), out)?;
    put_number(b"commit,", batch.batch, out)
}

fn put_rows(rows: &[DocRow], out: &mut Vec<u8>) -> Result<(), NoMemory>
    ensures ok { OnOk result (out.new.items ≡ out.old.items
        ++ stated.text_of_lines (stated.lines_of_rows rows.now)) }
    ensures front { Extends out.old.items out.new.items }
{
    match rows {
        [] => Ok(()),
        [first, others @ ..] => put_from(first, others, out),
    }
}

/// Puts the first row of a batch, and those after it.
fn put_from(first: &DocRow, others: &[DocRow], out: &mut Vec<u8>) -> Result<(), NoMemory>
    ensures ok { OnOk result (out.new.items ≡ out.old.items
        ++ stated.text_of_lines (stated.lines_of_rows (first.now ∷ others.now))) }
    ensures front { Extends out.old.items out.new.items }
{
    put_heading(first, out)?;
    put_row(first, out)?;
    put_later(first, others, out)
}

fn put_later(first: &DocRow, others: &[DocRow], out: &mut Vec<u8>) -> Result<(), NoMemory>
    ensures ok { OnOk result (out.new.items ≡ out.old.items
        ++ stated.text_of_lines (stated.later_lines first.now others.now)) }
    ensures front { Extends out.old.items out.new.items }
{
    let mut before = first;
    for row in others {
        put_next(before, row, out)?;
        before = row;
    }
    Ok(())
}

fn put_next(before: &DocRow, row: &DocRow, out: &mut Vec<u8>) -> Result<(), NoMemory>
    ensures ok { OnOk result ((rows : List DocRow) → out.new.items
        ++ stated.text_of_lines (stated.later_lines row.now rows)
        ≡ out.old.items ++ stated.text_of_lines (stated.later_lines before.now (row.now ∷ rows))) }
    ensures front { Extends out.old.items out.new.items }
{
    put_heading_after(before, row, out)?;
    put_row(row, out)
}

/// Puts the heading of a row where it isn't that of the row before.
fn put_heading_after(before: &DocRow, row: &DocRow, out: &mut Vec<u8>) -> Result<(), NoMemory>
    ensures ok { OnOk result (out.new.items ≡ out.old.items
        ++ stated.text_of_lines (stated.heading_after before.now row.now)) }
    ensures front { Extends out.old.items out.new.items }
{
    if has_heading_of(row, before) {
        return Ok(());
    }
    put_heading(row, out)
}

/// Whether two rows have the same table, keys and columns.
fn has_heading_of(row: &DocRow, before: &DocRow) -> bool
    ensures { result ≡ stated.same_heading before.now row.now }
{
    before.table == row.table
        && (have_same_names(&before.keys, &row.keys)
            && have_same_names(&before.columns, &row.columns))
}

fn have_same_names(names: &List<Txt>, others: &List<Txt>) -> bool
    ensures { result ≡ stated.same_names names.now others.now }
{
    names.same(others)
}

fn put_heading(row: &DocRow, out: &mut Vec<u8>) -> Result<(), NoMemory>
    ensures ok { OnOk result (out.new.items ≡ out.old.items
        ++ stated.text_of_lines (stated.heading_lines row.now)) }
    ensures front { Extends out.old.items out.new.items }
{
    put_name(b"table,", &row.table, out)?;
    put_names(b"keys", row.keys.inner().as_slice(), out)?;
    put_names(b"columns", row.columns.inner().as_slice(), out)
}

fn put_row(row: &DocRow, out: &mut Vec<u8>) -> Result<(), NoMemory>
    ensures ok { OnOk result (out.new.items ≡ out.old.items
        ++ stated.text_of_lines (stated.row_lines row.now)) }
    ensures front { Extends out.old.items out.new.items }
{
    put_old(&row.old, out)?;
    put_event(row, out)
}

fn put_event(row: &DocRow, out: &mut Vec<u8>) -> Result<(), NoMemory>
    ensures ok { OnOk result (out.new.items ≡ out.old.items
        ++ stated.text_of_lines (stated.event_line row.now.event row.now ∷ [])) }
    ensures front { Extends out.old.items out.new.items }
{
    let new = row.new.inner().as_slice();
    let key = row.key.inner().as_slice();
    match row.event {
        Event::Insert => put_values(b"insert,", new, out),
        Event::Update => put_update(new, key, out),
        Event::Delete => put_values(b"delete,", key, out),
    }
}

fn put_old(old: &Option<List<Field>>, out: &mut Vec<u8>) -> Result<(), NoMemory>
    ensures ok { OnOk result (out.new.items ≡ out.old.items
        ++ stated.text_of_lines (stated.old_lines old.now)) }
    ensures front { Extends out.old.items out.new.items }
{
    match old {
        None => Ok(()),
        Some(values) => put_values(b"old,", values.inner().as_slice(), out),
    }
}

fn put_update(new: &[Field], key: &[Field], out: &mut Vec<u8>) -> Result<(), NoMemory>
    ensures ok { OnOk result (out.new.items ≡ out.old.items ++ (codes "update,"
        ++ (written_line new.now ++ 44 ∷ (written_line key.now ++ 10 ∷ [])))) }
    ensures front { Extends out.old.items out.new.items }
{
    put(b"update,", out)?;
    put_fields(new, out)?;
    put(b",", out)?;
    put_fields(key, out)?;
    put(b"\n", out)
}

fn put_values(word: &[u8], values: &[Field], out: &mut Vec<u8>) -> Result<(), NoMemory>
    ensures ok { OnOk result (out.new.items ≡ out.old.items ++ (word.now ++ (written_line values.now
        ++ 10 ∷ []))) }
    ensures front { Extends out.old.items out.new.items }
{
    put(word, out)?;
    put_fields(values, out)?;
    put(b"\n", out)
}

fn put_name(word: &[u8], name: &Txt, out: &mut Vec<u8>) -> Result<(), NoMemory>
    ensures ok { OnOk result (out.new.items ≡ out.old.items ++ (word.now
        ++ (encode_utf8_all name.now ++ 10 ∷ []))) }
    ensures front { Extends out.old.items out.new.items }
{
    put(word, out)?;
    put(name.as_str().as_bytes(), out)?;
    put(b"\n", out)
}

fn put_number(word: &[u8], number: u64, out: &mut Vec<u8>) -> Result<(), NoMemory>
    ensures ok { OnOk result (out.new.items ≡ out.old.items ++ (word.now ++ (decimal number
        ++ 10 ∷ []))) }
    ensures front { Extends out.old.items out.new.items }
{
    let digits = number.to_string(*out.allocator())?;
    put(word, out)?;
    put(digits.as_bytes(), out)?;
    put(b"\n", out)
}

fn put_names(word: &[u8], names: &[Txt], out: &mut Vec<u8>) -> Result<(), NoMemory>
    ensures ok { OnOk result (out.new.items ≡ out.old.items ++ (word.now
        ++ (stated.further_names names.now ++ 10 ∷ []))) }
    ensures front { Extends out.old.items out.new.items }
{
    put(word, out)?;
    put_further(names, out)?;
    put(b"\n", out)
}

fn put_further(names: &[Txt], out: &mut Vec<u8>) -> Result<(), NoMemory>
    ensures ok { OnOk result (out.new.items ≡ out.old.items ++ stated.further_names names.now) }
    ensures front { Extends out.old.items out.new.items }
{
    for name in names {
        put_one(name, out)?;
    }
    Ok(())
}

fn put_one(name: &Txt, out: &mut Vec<u8>) -> Result<(), NoMemory>
    ensures ok { OnOk result ((rest : List ℕ) → out.new.items ++ rest ≡ out.old.items
        ++ 44 ∷ (encode_utf8_all name.now ++ rest)) }
    ensures front { Extends out.old.items out.new.items }
{
    put(b",", out)?;
    put(name.as_str().as_bytes(), out)
}

fn put(bytes: &[u8], out: &mut Vec<u8>) -> Result<(), NoMemory>
    ensures ok { OnOk result (out.new.items ≡ out.old.items ++ bytes.now) }
    ensures front { Extends out.old.items out.new.items }
{
    out.extend_from_slice(bytes)?;
    Ok(())
}
