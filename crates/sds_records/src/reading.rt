//! Records read as the parts that they tell.
ghost use Rattle.std.specs.Prelude.{◌≡◌, ◌<◌, ◌∷◌, List, length, None, Ok, Some, true};
ghost use Rattle.std.specs.Prelude.{IfOk, IfSome};
ghost use Rattle.sds_value.specs.declared.row.Field.{Field};
ghost use Rattle.sds_line.specs.Written.{are_fields, written_line};
ghost use Rattle.sds_trade.specs.rules.Sound.{IsSound};
ghost use Rattle.sds_records.specs.Fields.{fields_of_told};
ghost use Rattle.sds_records.specs.Parts.{put_edit};
ghost use Rattle.sds_records.specs.Told.{HasKeyOf, HasValues, IsHeld, Tells};
ghost use Rattle.sds_records.specs.Told.{is_formed, kept_record, record_of_told};
ghost use Rattle.sds_records.specs.declared.told.Told.{Told};

use crate::edits::put_part;
use crate::forms::{has_key, is_formed};
use crate::tellings::{
    told_batch, told_counts, told_lane, told_me, told_opening, told_peer, told_writer,
};
use crate::told_rows::{told_change, told_row};
use crate::{Part, Told};
use sds_base::{Bytes, List, NoMemory, Same};
use sds_line::{LineRefusal, read_line, written_reads_back};
use sds_outside::Edit;
use sds_types::Config;
use sds_value::Field;
use std::alloc::Global;

/// The part of a kind that is told of by what stands after the slash of a key, and by fields.
fn told_by(
    alloc: Global,
    config: &Config,
    kind: u8,
    rest: &[u8],
    fields: &[Field],
) -> Result<Option<Told>, NoMemory>
    ensures values { IfOk result (λ found. IfSome found (HasValues config.now)) }
    ensures found { IsSound config.now → (told : Told) → IsHeld told
        → is_formed config.now told ≡ true → HasValues config.now told
        → kind ∷ (47 ∷ rest.now) ≡ (record_of_told config.now told).key
        → fields.now ≡ fields_of_told config.now told → IfOk result (λ found. found ≡ Some told) }
{
    match kind {
        b'n' => match told_peer(alloc, rest, fields)? {
            Some(kept) => Ok(Some(Told::Peer(kept))),
            None => Ok(None),
        },
        b'o' => match told_opening(alloc, rest, fields)? {
            Some(opening) => Ok(Some(Told::Opening(opening))),
            None => Ok(None),
        },
        b'w' => match told_writer(alloc, rest, fields)? {
            Some(last) => Ok(Some(Told::Writer(last))),
            None => Ok(None),
        },
        b't' => match told_row(alloc, config, rest, fields)? {
            Some(row) => Ok(Some(Told::Row(row))),
            None => Ok(None),
        },
        b'd' => match told_change(alloc, config, rest, fields)? {
            Some(change) => Ok(Some(Told::Change(change))),
            None => Ok(None),
        },
        b'b' => match told_batch(alloc, config, rest, fields)? {
            Some(batch) => Ok(Some(Told::Batch(batch))),
            None => Ok(None),
        },
        b'i' => match told_lane(alloc, config, rest, fields)? {
            Some(lane) => Ok(Some(Told::Lane(lane))),
            None => Ok(None),
        },
        _ => Ok(None),
    }
}

/// The part that a key and fields tell, where the record is one's.
fn told_of(
    alloc: Global,
    config: &Config,
    key: &[u8],
    fields: &[Field],
) -> Result<Option<Told>, NoMemory>
    ensures values { IfOk result (λ found. IfSome found (HasValues config.now)) }
    ensures found { IsSound config.now → (told : Told) → IsHeld told
        → is_formed config.now told ≡ true → HasValues config.now told
        → key.now ≡ (record_of_told config.now told).key
        → fields.now ≡ fields_of_told config.now told → IfOk result (λ found. found ≡ Some told) }
{
    match key {
        [kind, slash, rest @ ..] if *slash == b'/' => told_by(alloc, config, *kind, rest, fields),
        _ => {
            if key == "me".as_bytes() {
                match told_me(alloc, fields)? {
                    Some(me) => Ok(Some(Told::Me(me))),
                    None => Ok(None),
                }
            } else if key == "count".as_bytes() {
                match told_counts(fields) {
                    Some(counts) => Ok(Some(Told::Counts(counts))),
                    None => Ok(None),
                }
            } else {
                Ok(None)
            }
        }
    }
}

/// The edit that puts the record of a part.
fn edit_of(alloc: Global, config: &Config, told: &Told) -> Result<Edit, NoMemory>
    requires keys { HasKeyOf config.now told.now }
    requires values { HasValues config.now told.now }
    ensures { IfOk result (λ edit. edit ≡ put_edit (record_of_told config.now told.now)) }
{
    match told {
        Told::Me(me) => put_part(alloc, config, &Part::Me(me)),
        Told::Counts(counts) => put_part(alloc, config, &Part::Counts(counts)),
        Told::Peer(kept) => put_part(alloc, config, &Part::Peer(kept)),
        Told::Opening(opening) => put_part(alloc, config, &Part::Opening(opening)),
        Told::Writer(last) => put_part(alloc, config, &Part::Writer(last)),
        Told::Row(row) => put_part(alloc, config, &Part::Row(row.table, &row.row)),
        Told::Change(change) => put_part(alloc, config, &Part::Change(change)),
        Told::Batch(batch) => put_part(alloc, config, &Part::Batch(batch)),
        Told::Lane(lane) => put_part(alloc, config, &Part::Lane(lane)),
    }
}

/// Whether a record is the one of a part.
fn is_record_of(
    alloc: Global,
    config: &Config,
    told: &Told,
    key: &Bytes,
    body: &Bytes,
) -> Result<bool, NoMemory>
    requires values { HasValues config.now told.now }
    ensures yes { IfOk result (λ same. same ≡ true
        → record_of_told config.now told.now ≡ kept_record key.now body.now) }
    ensures no { HasKeyOf config.now told.now
        → record_of_told config.now told.now ≡ kept_record key.now body.now
        → IfOk result (λ same. same ≡ true) }
{
    if !has_key(config, told) {
        return Ok(false);
    }
    let Edit {
        key: written_key,
        body: written_body,
    } = edit_of(alloc, config, told)?;
    match written_body {
        Some(written) => Ok(written_key.same(key) && written.same(body)),
        None => Ok(false),
    }
}

/// The fields that the body of a record writes. An empty body is that of a lone null.
fn fields_in(alloc: Global, body: &[u8]) -> Result<Option<List<Field>>, NoMemory>
    ensures { (fields : List Field) → are_fields fields ≡ true → 0 < length fields
        → body.now ≡ written_line fields → IfOk result (λ found. found ≡ Some fields) }
{
    written_reads_back();
    if body.is_empty() {
        let mut fields = List::new(alloc);
        fields.push(Field::Null)?;
        return Ok(Some(fields));
    }
    match read_line(alloc, body) {
        Ok(fields) => Ok(Some(fields)),
        Err(LineRefusal::NoMemory) => Err(NoMemory),
        Err(
            LineRefusal::BareQuote
            | LineRefusal::OpenQuote
            | LineRefusal::BadEscape
            | LineRefusal::LineTooLong
            | LineRefusal::NotUtf8,
        ) => Ok(None),
    }
}

/// The part that was told of, where a record is its record and it has its form.
fn confirmed(
    alloc: Global,
    config: &Config,
    told: Told,
    key: &Bytes,
    body: &Bytes,
) -> Result<Option<Told>, NoMemory>
    requires { HasValues config.now told }
    ensures told { IfOk result (λ found.
        IfSome found (Tells config.now (kept_record key.now body.now))) }
    ensures found { is_formed config.now told ≡ true → HasKeyOf config.now told
        → record_of_told config.now told ≡ kept_record key.now body.now
        → IfOk result (λ found. found ≡ Some told) }
{
    if !is_formed(config, &told) {
        return Ok(None);
    }
    if is_record_of(alloc, config, &told, key, body)? {
        return Ok(Some(told));
    }
    Ok(None)
}

/// The part of a node's state that a record tells: the one whose record it is, or none where it is
/// none's. A record is a part's only as `put_part` writes it; the tables, channels and groups that
/// it names are the configuration's, nodes and writers are named by names, and each value is null
/// or the printed text of one of its column's kind. Numbers have at most 64 bits. That no part is
/// missed holds under a sound configuration (the forms of records are symds' own).
pub fn read_record(
    alloc: Global,
    config: &Config,
    key: &Bytes,
    body: &Bytes,
) -> Result<Option<Told>, NoMemory>
    ensures told { IfOk result (λ found.
        IfSome found (Tells config.now (kept_record key.now body.now))) }
    ensures none { IsSound config.now → result ≡ Ok None → (told : Told) → IsHeld told
        → Tells config.now (kept_record key.now body.now) told → ⊥ }
{
    let Some(fields) = fields_in(alloc, body.inner())? else {
        return Ok(None);
    };
    match told_of(alloc, config, key.inner(), fields.inner())? {
        Some(told) => confirmed(alloc, config, told, key, body),
        None => Ok(None),
    }
}
