//! The texts that a program has are of characters: the values of documents, and the expressions of
//! a configuration's transforms. Each function goes through these texts and changes nothing.
ghost use Rattle.std.specs.Prelude.{◌≡◌, true};
ghost use Rattle.std.specs.List.{All, list_all};
ghost use Rattle.std.specs.Str.{all_scalars};
ghost use Rattle.sds_line.specs.Written.{are_fields, is_field};
ghost use Rattle.sds_batchtext.specs.Writable.{is_batch_text, is_old_text, is_row_text};
ghost use Rattle.sds_doclaws.specs.Writable.{IsOfCharacters};
ghost use Rattle.sds_received.specs.Characters.{is_column_text, is_transform_text};

use sds_base::{List, Txt};
use sds_types::{BatchDoc, Config, TransformColumn, TransformDef};
use sds_value::{DocRow, Field};

/// The expressions of a configuration's transforms are of characters, as all texts of a program
/// are.
pub fn expressions_are_of_characters(config: &Config)
    ensures { All IsOfCharacters config.now.transforms }
{
    transforms_are_of_characters(config.transforms.inner().as_slice());
}

fn transforms_are_of_characters(transforms: &[TransformDef])
    ensures { list_all is_transform_text transforms.now ≡ true }
{
    for transform in transforms {
        columns_are_of_characters(transform.columns.inner().as_slice());
    }
}

fn columns_are_of_characters(columns: &[TransformColumn])
    ensures { list_all is_column_text columns.now ≡ true }
{
    for column in columns {
        text_is_of_characters(&column.expression);
    }
}

/// The values of the rows of batches are of characters.
pub(crate) fn batches_are_of_characters(docs: &[BatchDoc])
    ensures { list_all is_batch_text docs.now ≡ true }
{
    for doc in docs {
        rows_are_of_characters(doc.rows.inner().as_slice());
    }
}

fn rows_are_of_characters(rows: &[DocRow])
    ensures { list_all is_row_text rows.now ≡ true }
{
    for row in rows {
        row_is_of_characters(row);
    }
}

fn row_is_of_characters(row: &DocRow)
    ensures { is_row_text row.now ≡ true }
{
    fields_are_of_characters(row.new.inner().as_slice());
    fields_are_of_characters(row.key.inner().as_slice());
    old_is_of_characters(&row.old);
}

fn old_is_of_characters(old: &Option<List<Field>>)
    ensures { is_old_text old.now ≡ true }
{
    if let Some(fields) = old {
        fields_are_of_characters(fields.inner().as_slice());
    }
}

fn fields_are_of_characters(fields: &[Field])
    ensures { are_fields fields.now ≡ true }
{
    for field in fields {
        field_is_of_characters(field);
    }
}

fn field_is_of_characters(field: &Field)
    ensures { is_field field.now ≡ true }
{
    if let Field::Text(text) = field {
        text_is_of_characters(text);
    }
}

fn text_is_of_characters(text: &Txt)
    ensures { all_scalars text.now ≡ true }
{
    text.as_str();
}
