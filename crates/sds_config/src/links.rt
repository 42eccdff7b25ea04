//! The section `link`.
ghost use Rattle.std.specs.Prelude.{◌≡◌};
ghost use Rattle.sds_config.specs.Links as wanted;

use crate::fields::{only_keys, place_at, word_at};
use crate::sections::Entry;
use crate::{Config, ConfigRefusal, LinkDef};
use sds_base::Txt;
use std::alloc::Global;
use toml::Table;

impl Entry for LinkDef {
    ghost use Rattle.sds_config.specs.Links.{link_of};

    ghost entry_of = { link_of };

    fn read(
        alloc: Global,
        config: &Config,
        earlier: &[LinkDef],
        table: &Table,
        at: &str,
    ) -> Result<LinkDef, ConfigRefusal> {
        only_keys(alloc, table, at, &["source", "target", "action"])?;
        let source = place_at(alloc, table, at, "source", &config.groups)?;
        let target = place_at(alloc, table, at, "target", &config.groups)?;
        let action = word_at(alloc, table, at, "action")?;
        if leads(earlier, source, target) {
            return Err(ConfigRefusal::Duplicate(Txt::copied(alloc, at)?));
        }
        Ok(LinkDef {
            source,
            target,
            action,
        })
    }
}

/// Whether a link leads from the one group to the other.
pub fn leads(links: &[LinkDef], source: u32, target: u32) -> bool
    ensures { result ≡ wanted.leads links.now source target }
{
    links
        .iter()
        .any(|link| link.source == source && link.target == target)
}
