//! Fields by their names.
ghost use Rattle.std.specs.Prelude.{◌≡◌, IfOk, List, ℕ, map, option_copied};
ghost use Rattle.std.specs.List.{zip};
ghost use Rattle.sds_trade.specs.rules.DocRows as doc;
ghost use Rattle.sds_trade.specs.rules.MadeSides as made;
ghost use Rattle.sds_trade.specs.rules.Places as place;
ghost use Rattle.sds_transform.specs.Found.{or_null};

use sds_base::{List, NoMemory, Twin, Txt};
use sds_value::Field;
use std::alloc::Global;

/// The field of a name: that of the first, which is null where none has it.
pub(crate) fn field_in<'a>(fields: &'a [(Txt, Field)], name: &Txt) -> Option<&'a Field>
    ensures { or_null (option_copied result) ≡ doc.field_in fields.now name.now }
{
    for (other, field) in fields {
        if *other == *name {
            return Some(field);
        }
    }
    None
}

/// A copy of a field that is looked up.
pub(crate) fn copy_of(alloc: Global, field: Option<&Field>) -> Result<Field, NoMemory>
    ensures { IfOk result (λ copy. copy ≡ or_null (option_copied field.entry)) }
{
    match field {
        None => Ok(Field::Null),
        Some(field) => field.twin(alloc),
    }
}

/// Names with their fields.
pub(crate) fn zipped(
    alloc: Global,
    names: &[Txt],
    fields: &[Field],
) -> Result<Vec<(Txt, Field)>, NoMemory>
    ensures { IfOk result (λ made. made.items ≡ zip names.now fields.now) }
{
    let mut made = Vec::new(alloc);
    for (place, name) in names.iter().enumerate() {
        let Some(field) = fields.get(place) else {
            break;
        };
        made.push((name.twin(alloc)?, field.twin(alloc)?))?;
    }
    Ok(made)
}

/// Names, each with the field that it has among others.
pub(crate) fn looked_up(
    alloc: Global,
    fields: &[(Txt, Field)],
    names: &[Txt],
) -> Result<Vec<(Txt, Field)>, NoMemory>
    ensures { IfOk result (λ made. made.items
        ≡ map (λ (name : List ℕ). (name, doc.field_in fields.now name)) names.now) }
{
    let mut made = Vec::new(alloc);
    for name in names {
        made.push((name.twin(alloc)?, copy_of(alloc, field_in(fields, name))?))?;
    }
    Ok(made)
}

/// The names of fields.
pub(crate) fn names_of(alloc: Global, fields: &[(Txt, Field)]) -> Result<List<Txt>, NoMemory>
    ensures { IfOk result (λ names. names ≡ made.names_of fields.now) }
{
    let mut names = List::new(alloc);
    for (name, _) in fields {
        names.push(name.twin(alloc)?)?;
    }
    Ok(names)
}

/// The fields without their names.
pub(crate) fn values_of(alloc: Global, fields: &[(Txt, Field)]) -> Result<List<Field>, NoMemory>
    ensures { IfOk result (λ values. values ≡ made.values_of fields.now) }
{
    let mut values = List::new(alloc);
    for (_, field) in fields {
        values.push(field.twin(alloc)?)?;
    }
    Ok(values)
}

/// Whether one of these fields has the name.
pub(crate) fn is_listed(fields: &[(Txt, Field)], name: &Txt) -> bool
    ensures { result ≡ place.is_among (made.names_of fields.now) name.now }
{
    for (other, _) in fields {
        if *other == *name {
            return true;
        }
    }
    false
}
