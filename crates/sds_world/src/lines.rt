//! Lines that were read: they give names, and texts of characters.
ghost use Rattle.std.specs.Prelude.{◌≡◌, IfOk, IfSome, true};
ghost use Rattle.std.specs.Str.{all_scalars};
ghost use Rattle.sds_line.specs.Written.{are_fields, is_field};
ghost use Rattle.sds_scenario.specs.Lines.{line_of};
ghost use Rattle.sds_world.specs.Scening.{IsSaidLine};

use sds_base::{List, NoMemory, Txt};
use sds_scenario::read_line_fields;
use sds_types::ScenarioLine;
use sds_value::Field;
use std::alloc::Global;

/// What the fields of a line say, none where it is malformed. What it gives to a call of a node is
/// what a node may be asked with.
pub(crate) fn read_said(
    alloc: Global,
    fields: List<Field>,
) -> Result<Option<ScenarioLine>, NoMemory>
    ensures said { IfOk result (λ said. said ≡ line_of fields) }
    ensures sound { IfOk result (λ said. IfSome said IsSaidLine) }
{
    fields_are_spelt(fields.inner().as_slice());
    read_line_fields(alloc, fields)
}

/// Goes through the texts of fields, which are of characters, as all texts of a program are.
fn fields_are_spelt(fields: &[Field])
    ensures { are_fields fields.now ≡ true }
{
    for field in fields {
        field_is_spelt(field);
    }
}

fn field_is_spelt(field: &Field)
    ensures { is_field field.now ≡ true }
{
    match field {
        Field::Null => {}
        Field::Text(text) => text_is_spelt(text),
    }
}

fn text_is_spelt(text: &Txt)
    ensures { all_scalars text.now ≡ true }
{
    text.as_str();
}
