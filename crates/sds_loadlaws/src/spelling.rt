//! Laws of the configuration and the way that a program has: their texts are of characters, as all
//! its texts are. Each goes through these texts and changes nothing.
ghost use Rattle.std.specs.Prelude.{◌≡◌, IsTrue, true};
ghost use Rattle.std.specs.List.{list_all};
ghost use Rattle.std.specs.Str.{all_scalars};
ghost use Rattle.sds_types.specs.declared.transform_column.MapPair as mapped;
ghost use Rattle.sds_loadlaws.specs.Spelt.{is_spelt_column, is_spelt_config, is_spelt_expression};
ghost use Rattle.sds_loadlaws.specs.Spelt.{is_spelt_transform, is_spelt_way};

use sds_base::Txt;
use sds_types::{ColumnExpression, Config, MapPair, TransformColumn, TransformDef, Way};

/// The constants and the targets of value maps in the transforms of a configuration are of
/// characters.
pub fn configs_are_spelt(config: &Config)
    ensures { IsTrue (is_spelt_config config.now) }
{
    transforms_are_spelt(config.transforms.inner().as_slice());
}

/// The ids of the two nodes of a way are of characters.
pub fn ways_are_spelt(way: &Way)
    ensures { IsTrue (is_spelt_way way.now) }
{
    text_is_spelt(&way.source);
    text_is_spelt(&way.target);
}

fn text_is_spelt(text: &Txt)
    ensures { all_scalars text.now ≡ true }
{
    text.as_str();
}

fn transforms_are_spelt(transforms: &[TransformDef])
    ensures { list_all is_spelt_transform transforms.now ≡ true }
{
    for transform in transforms {
        columns_are_spelt(transform.columns.inner().as_slice());
    }
}

fn columns_are_spelt(columns: &[TransformColumn])
    ensures { list_all is_spelt_column columns.now ≡ true }
{
    for column in columns {
        expression_is_spelt(&column.parsed);
    }
}

fn expression_is_spelt(expression: &ColumnExpression)
    ensures { is_spelt_expression expression.now ≡ true }
{
    match expression {
        ColumnExpression::Const(text) => text_is_spelt(text),
        ColumnExpression::ValueMap(pairs) => targets_are_spelt(pairs.inner().as_slice()),
        _ => {}
    }
}

fn targets_are_spelt(pairs: &[MapPair])
    ensures { list_all (λ (pair : mapped.MapPair). all_scalars pair.target) pairs.now ≡ true }
{
    for pair in pairs {
        text_is_spelt(&pair.target);
    }
}
