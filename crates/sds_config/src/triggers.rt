//! The section `trigger`.
ghost use Rattle.std.specs.Prelude.{◌≡◌};
ghost use Rattle.toml.specs.View.{table_view};
ghost use Rattle.sds_config.specs.Refusals.{Answers};
ghost use Rattle.sds_config.specs.Triggers as wanted;

use crate::fields::{flag_at, id_at, only_keys, place_at};
use crate::sections::Entry;
use crate::{Config, ConfigRefusal, TriggerDef};
use sds_base::Txt;
use std::alloc::Global;
use toml::Table;

impl Entry for TriggerDef {
    ghost use Rattle.sds_config.specs.Triggers.{trigger_of};

    ghost entry_of = { trigger_of };

    fn read(
        alloc: Global,
        config: &Config,
        earlier: &[TriggerDef],
        table: &Table,
        at: &str,
    ) -> Result<TriggerDef, ConfigRefusal> {
        only_keys(
            alloc,
            table,
            at,
            &[
                "id",
                "source_table",
                "channel",
                "sync_on_insert",
                "sync_on_update",
                "sync_on_delete",
                "sync_on_incoming_batch",
            ],
        )?;
        let id = id_at(alloc, table, at, "id", earlier)?;
        let source_table = place_at(alloc, table, at, "source_table", &config.tables)?;
        let channel = place_at(alloc, table, at, "channel", &config.channels)?;
        let syncs = syncs_at(alloc, table, at)?;
        let trigger = TriggerDef {
            id,
            source_table,
            channel,
            sync_on_insert: syncs.insert,
            sync_on_update: syncs.update,
            sync_on_delete: syncs.delete,
            sync_on_incoming_batch: syncs.incoming,
        };
        whole_trigger(alloc, earlier, at, trigger)
    }
}

/// Which changes a trigger captures.
#[derive(Clone, Copy, Debug)]
pub struct Syncs {
    pub insert: bool,
    pub update: bool,
    pub delete: bool,
    pub incoming: bool,
}

fn syncs_at(alloc: Global, table: &Table, at: &str) -> Result<Syncs, ConfigRefusal>
    ensures { Answers result (wanted.syncs_at (table_view table.now) at.now) }
{
    let insert = flag_at(alloc, table, at, "sync_on_insert", true)?;
    let update = flag_at(alloc, table, at, "sync_on_update", true)?;
    let delete = flag_at(alloc, table, at, "sync_on_delete", true)?;
    let incoming = flag_at(alloc, table, at, "sync_on_incoming_batch", false)?;
    Ok(Syncs {
        insert,
        update,
        delete,
        incoming,
    })
}

fn captures(earlier: &[TriggerDef], table: u32) -> bool
    ensures { result ≡ wanted.captures earlier.now table }
{
    earlier.iter().any(|other| other.source_table == table)
}

fn whole_trigger(
    alloc: Global,
    earlier: &[TriggerDef],
    at: &str,
    trigger: TriggerDef,
) -> Result<TriggerDef, ConfigRefusal>
    ensures { Answers result (wanted.whole_trigger earlier.now at.now trigger) }
{
    if captures(earlier, trigger.source_table) {
        return Err(ConfigRefusal::Duplicate(Txt::copied(alloc, at)?));
    }
    Ok(trigger)
}
