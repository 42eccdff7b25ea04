//! What the rows of a run ask for.
use sds_base::NoMemory;
use sds_rows::Tables;
use sds_types::Resolution;
use std::alloc::Global;

/// What judges the rows of a run: the rows of an own write, or those of a batch.
pub trait Judge {
    ghost use Rattle.std.specs.Prelude.{◌≡◌, ℕ, ◌+◌, ◌<◌, ◌^◌, List, IfOk};
    ghost use Rattle.sds_value.specs.declared.table.TableDef.{TableDef};
    ghost use Rattle.sds_types.specs.declared.conflict.Resolution.{Resolution};
    ghost use Rattle.sds_types.specs.declared.row.TableRow.{TableRow};

    /// What is judged.
    type Row;

    /// The tables that the rows are for.
    ghost defs: { Self → List TableDef };

    /// The number by which a row goes in a refusal, where it stands at a place, from 0.
    ghost number: { Self → ℕ → Self.Row → ℕ };

    /// What a row asks for where certain rows stand.
    ghost asked: { Self → List TableRow → Self.Row → Resolution };

    /// The number by which a row goes in a refusal.
    fn number(&self, place: usize, row: &Self::Row) -> u32
        requires { place + 1 < 2 ^ 32 }
        ensures { result ≡ number self.now place row.now };

    /// What a row asks for where these tables stand.
    fn ask(&self, alloc: Global, tables: &Tables, row: &Self::Row) -> Result<Resolution, NoMemory>
        requires { tables.now.defs ≡ defs self.now }
        ensures { IfOk result (λ asks. asks ≡ asked self.now tables.now.rows row.now) };
}
