//! The tables of a node as a person sees them.
#![tactic(auto, using(sds_line::proofs::Fronts::extends_same, sds_line::proofs::Fronts::extends_by, sds_line::proofs::Fronts::extends_if, sds_line::proofs::Fronts::extends_then))]

ghost use Rattle.std.specs.Prelude.{◌≡◌, ◌++◌, Some, OnOk, OnErr, slice_get};
ghost use Rattle.sds_line.specs.Written.{Extends};
ghost use Rattle.sds_trade.specs.rules.Tables.{AreTables};
ghost use Rattle.sds_image.specs.Meaning.{meaning_of};
ghost use Rattle.sds_screen.specs.Shown.{table_text, tables_text};

use sds_base::NoMemory;
use sds_image::State;
use sds_rows::Tables;
use sds_types::Config;
use sds_value::TableDef;
use std::alloc::Global;

/// Puts the tables of a node, in the order of the configuration: of each the word `table` with its
/// name, then its rows by key, each as a line of its values as they are printed (the form is symds'
/// own). The state's tables are those of the configuration. Out of memory leaves `out` as it was.
pub fn put_tables(
    alloc: Global,
    config: &Config,
    state: &State,
    out: &mut Vec<u8>,
) -> Result<(), NoMemory>
    requires defs { state.now.tables.defs ≡ config.now.tables }
    requires rows { AreTables config.now.tables state.now.tables.rows }
    ensures ok { OnOk result (out.new.items
        ≡ out.old.items ++ tables_text config.now (meaning_of state.now)) }
    ensures err { OnErr result (out.new.items ≡ out.old.items) }
{
    let start = out.len();
    let answer = put_each(alloc, config, state, out);
    if answer.is_err() {
        out.truncate(start);
    }
    answer
}

/// Puts one table after another.
fn put_each(
    alloc: Global,
    config: &Config,
    state: &State,
    out: &mut Vec<u8>,
) -> Result<(), NoMemory>
    requires defs { state.now.tables.defs ≡ config.now.tables }
    requires rows { AreTables config.now.tables state.now.tables.rows }
    ensures ok { OnOk result (out.new.items
        ≡ out.old.items ++ tables_text config.now (meaning_of state.now)) }
    ensures front { Extends out.old.items out.new.items }
{
    for (at, def) in config.tables.inner().iter().enumerate() {
        let Ok(place) = u32::try_from(at) else {
            // No memory holds that many tables.
            return Err(NoMemory);
        };
        put_table(alloc, &state.tables, place, def, out)?;
    }
    Ok(())
}

/// Puts the table at a place: its name, then its rows by key.
fn put_table(
    alloc: Global,
    tables: &Tables,
    place: u32,
    def: &TableDef,
    out: &mut Vec<u8>,
) -> Result<(), NoMemory>
    requires def { slice_get tables.now.defs place ≡ Some def.now }
    requires rows { AreTables tables.now.defs tables.now.rows }
    ensures ok { OnOk result (out.new.items
        ≡ out.old.items ++ table_text tables.now.rows (place, def.now)) }
    ensures front { Extends out.old.items out.new.items }
{
    let name = def.name.as_str();
    let head = format!(in alloc; "table {name}\n")?;
    out.extend_from_slice(head.as_bytes())?;
    tables.put_rows(alloc, place, out)
}
