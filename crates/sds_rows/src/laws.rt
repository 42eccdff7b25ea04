//! The law of steps on tables.
ghost use Rattle.std.specs.Prelude.{◌≡◌, ◌≤◌, List, None, length};
ghost use Rattle.sds_value.specs.declared.table.TableDef.{TableDef};
ghost use Rattle.sds_types.specs.Limits.{most_rows};
ghost use Rattle.sds_types.specs.declared.row.RowStep.{RowStep};
ghost use Rattle.sds_types.specs.declared.row.TableRow.{TableRow};
ghost use Rattle.sds_trade.specs.rules.Fitting.{FitsStep};
ghost use Rattle.sds_trade.specs.rules.StepRules.{broken_rule};
ghost use Rattle.sds_trade.specs.rules.Steps.{rows_after};
ghost use Rattle.sds_trade.specs.rules.Tables.{AreTables};

/// The law that rows which are a node's tables are so after each step that fits the definitions and
/// breaks no rule, where no more rows stand than a node may have.
pub fn steps_keep_tables()
    ensures { (defs : List TableDef) (rows : List TableRow) (step : RowStep) → AreTables defs rows
        → FitsStep defs step → broken_rule defs rows step ≡ None
        → length (rows_after defs rows step) ≤ most_rows → AreTables defs (rows_after defs rows step) }
{}
