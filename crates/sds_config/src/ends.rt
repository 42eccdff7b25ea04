//! The two groups that an entry stands between.
ghost use Rattle.std.specs.Prelude.{◌≤◌, length};
ghost use Rattle.toml.specs.View.{table_view};
ghost use Rattle.sds_config.specs.Ends as wanted;
ghost use Rattle.sds_config.specs.Refusals.{Answers};

use crate::ConfigRefusal;
use crate::fields::place_at;
use sds_base::{List, Txt};
use std::alloc::Global;
use toml::Table;

/// The places of the two groups that an entry stands between.
#[derive(Clone, Copy, Debug)]
pub struct Ends {
    pub source: u32,
    pub target: u32,
}

/// Reads the fields `source_group` and `target_group`.
pub fn ends_at(
    alloc: Global,
    groups: &List<Txt>,
    table: &Table,
    at: &str,
) -> Result<Ends, ConfigRefusal>
    requires { length groups.now ≤ 1024 }
    ensures { Answers result (wanted.ends_at groups.now (table_view table.now) at.now) }
{
    let source = place_at(alloc, table, at, "source_group", groups)?;
    let target = place_at(alloc, table, at, "target_group", groups)?;
    Ok(Ends { source, target })
}
