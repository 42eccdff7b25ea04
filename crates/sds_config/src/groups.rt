//! The section `group`.
use crate::fields::{id_at, only_keys};
use crate::sections::Entry;
use crate::{Config, ConfigRefusal};
use sds_base::Txt;
use std::alloc::Global;
use toml::Table;

impl Entry for Txt {
    ghost use Rattle.sds_config.specs.Groups.{group_of};

    ghost entry_of = { group_of };

    fn read(
        alloc: Global,
        _config: &Config,
        earlier: &[Txt],
        table: &Table,
        at: &str,
    ) -> Result<Txt, ConfigRefusal> {
        only_keys(alloc, table, at, &["id"])?;
        id_at(alloc, table, at, "id", earlier)
    }
}
