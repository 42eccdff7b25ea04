//! The section `channel`.
use crate::fields::{id_at, number_at, only_keys, word_at};
use crate::sections::Entry;
use crate::{ChannelDef, Config, ConfigRefusal};
use std::alloc::Global;
use toml::Table;

impl Entry for ChannelDef {
    ghost use Rattle.sds_config.specs.Channels.{channel_of};

    ghost entry_of = { channel_of };

    fn read(
        alloc: Global,
        _config: &Config,
        earlier: &[ChannelDef],
        table: &Table,
        at: &str,
    ) -> Result<ChannelDef, ConfigRefusal> {
        only_keys(
            alloc,
            table,
            at,
            &[
                "id",
                "processing_order",
                "max_batch_size",
                "max_batch_to_send",
                "batch_algorithm",
            ],
        )?;
        let id = id_at(alloc, table, at, "id", earlier)?;
        let processing_order = number_at(alloc, table, at, "processing_order", 0, 1_000_000)?;
        let max_batch_size = number_at(alloc, table, at, "max_batch_size", 1, 10_000)?;
        let max_batch_to_send = number_at(alloc, table, at, "max_batch_to_send", 1, 10_000)?;
        let batch_algorithm = word_at(alloc, table, at, "batch_algorithm")?;
        Ok(ChannelDef {
            id,
            processing_order,
            max_batch_size,
            max_batch_to_send,
            batch_algorithm,
        })
    }
}
