//! The section `trigger_router`.
ghost use Rattle.std.specs.Prelude.{◌≡◌};
ghost use Rattle.sds_config.specs.Refusals.{Answers};
ghost use Rattle.sds_config.specs.TriggerRouters as wanted;

use crate::fields::{flag_at, only_keys, place_at};
use crate::sections::Entry;
use crate::{Config, ConfigRefusal, TriggerRouterDef};
use sds_base::Txt;
use std::alloc::Global;
use toml::Table;

impl Entry for TriggerRouterDef {
    ghost use Rattle.sds_config.specs.TriggerRouters.{trigger_router_of};

    ghost entry_of = { trigger_router_of };

    fn read(
        alloc: Global,
        config: &Config,
        earlier: &[TriggerRouterDef],
        table: &Table,
        at: &str,
    ) -> Result<TriggerRouterDef, ConfigRefusal> {
        only_keys(
            alloc,
            table,
            at,
            &["trigger", "router", "enabled", "ping_back_enabled"],
        )?;
        let trigger = place_at(alloc, table, at, "trigger", &config.triggers)?;
        let router = place_at(alloc, table, at, "router", &config.routers)?;
        let enabled = flag_at(alloc, table, at, "enabled", true)?;
        let ping_back_enabled = flag_at(alloc, table, at, "ping_back_enabled", false)?;
        let pair = TriggerRouterDef {
            trigger,
            router,
            enabled,
            ping_back_enabled,
        };
        whole_pair(alloc, earlier, at, pair)
    }
}

fn joins(pairs: &[TriggerRouterDef], trigger: u32, router: u32) -> bool
    ensures { result ≡ wanted.joins pairs.now trigger router }
{
    pairs
        .iter()
        .any(|pair| pair.trigger == trigger && pair.router == router)
}

fn whole_pair(
    alloc: Global,
    earlier: &[TriggerRouterDef],
    at: &str,
    pair: TriggerRouterDef,
) -> Result<TriggerRouterDef, ConfigRefusal>
    ensures { Answers result (wanted.whole_pair earlier.now at.now pair) }
{
    if joins(earlier, pair.trigger, pair.router) {
        return Err(ConfigRefusal::Duplicate(Txt::copied(alloc, at)?));
    }
    Ok(pair)
}
