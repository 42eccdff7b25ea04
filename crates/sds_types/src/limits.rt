//! The limits of symds, each with its unit. They are symds' own.
ghost use Rattle.std.specs.Prelude.{◌≡◌};
ghost use Rattle.sds_types.specs.Limits as stated;

/// The bytes of a configuration file.
pub const MOST_CONFIG_BYTES: usize = 1 << 20;

/// Node groups.
pub const MOST_GROUPS: usize = 32;

/// Links between groups.
pub const MOST_LINKS: usize = 64;

/// Channels.
pub const MOST_CHANNELS: usize = 32;

/// Tables.
pub const MOST_TABLES: usize = 64;

/// Triggers.
pub const MOST_TRIGGERS: usize = 64;

/// Routers.
pub const MOST_ROUTERS: usize = 256;

/// Entries that join triggers to routers.
pub const MOST_TRIGGER_ROUTERS: usize = 1_024;

/// Transforms.
pub const MOST_TRANSFORMS: usize = 256;

/// Conflict settings.
pub const MOST_CONFLICTS: usize = 256;

/// Columns of a table.
pub const MOST_COLUMNS: usize = 64;

/// Columns of a transform.
pub const MOST_TRANSFORM_COLUMNS: usize = 64;

/// Columns of a transform that are keys of the row it makes.
pub const MOST_TRANSFORM_KEYS: usize = 32;

/// Characters of the expression of a transform's column; also the numbers that `left` and `substr` take.
pub const MOST_EXPRESSION_CHARACTERS: usize = 2_000;

/// The multiplier of an additive column, on either side of 0.
pub const MOST_MULTIPLIER: u32 = 1_000_000;

/// The number by which channels go.
pub const MOST_PROCESSING_ORDER: u32 = 1_000_000;

/// Changes that make a batch full, and batches that a message takes of a channel.
pub const MOST_BATCH_SIZE: u32 = 10_000;

/// Characters of a name.
pub const MOST_NAME_CHARACTERS: usize = 50;

/// Characters of a text.
pub const MOST_VARCHAR_CHARACTERS: u16 = 2_000;

/// Bytes of a value of bytes.
pub const MOST_VARBINARY_BYTES: u16 = 4_000;

/// Digits after the point.
pub const MOST_DECIMAL_DIGITS: u8 = 9;

/// The widths of a table's columns together, in bytes.
pub const MOST_TABLE_WIDTH: u32 = 16_000;

/// Peers of a node.
pub const MOST_PEERS: usize = 1_000;

/// Rows of all tables of a node together.
pub const MOST_ROWS: u32 = 200_000;

/// Rows of an own write.
pub const MOST_WRITE_ROWS: usize = 10_000;

/// Changes that wait to be routed, before a step that would be captured is refused.
pub const MOST_UNROUTED_CHANGES: u32 = 100_000;

/// Numbers of acts, changes, transactions and batches.
pub const MOST_COUNT: u64 = 1 << 62;

/// Bytes of a line, its line feed not counted.
pub const MOST_LINE_BYTES: usize = 1 << 20;

/// Bytes of a scenario, a document or another input.
pub const MOST_INPUT_BYTES: usize = 1 << 30;

/// Bytes of a channel's part of a message, after which no further batch is added to it.
pub const MOST_PART_BYTES: usize = 1 << 24;

/// The limits are those that the definitions go by.
pub fn limits_are_stated()
    ensures file { (MOST_CONFIG_BYTES ≡ stated.most_config_bytes)
        × (MOST_EXPRESSION_CHARACTERS ≡ stated.most_expression_characters) × (MOST_MULTIPLIER ≡ stated.most_multiplier)
        × (MOST_PROCESSING_ORDER ≡ stated.most_processing_order) × (MOST_BATCH_SIZE ≡ stated.most_batch_size)
        × (MOST_NAME_CHARACTERS ≡ stated.most_name_characters) }
    ensures sections { (MOST_GROUPS ≡ stated.most_groups) × (MOST_LINKS ≡ stated.most_links)
        × (MOST_CHANNELS ≡ stated.most_channels) × (MOST_TABLES ≡ stated.most_tables)
        × (MOST_TRIGGERS ≡ stated.most_triggers) × (MOST_ROUTERS ≡ stated.most_routers)
        × (MOST_TRIGGER_ROUTERS ≡ stated.most_trigger_routers) × (MOST_TRANSFORMS ≡ stated.most_transforms)
        × (MOST_CONFLICTS ≡ stated.most_conflicts) }
    ensures columns { (MOST_COLUMNS ≡ stated.most_columns)
        × (MOST_TRANSFORM_COLUMNS ≡ stated.most_transform_columns)
        × (MOST_TRANSFORM_KEYS ≡ stated.most_transform_keys) }
    ensures kinds { (MOST_VARCHAR_CHARACTERS ≡ stated.most_varchar_characters)
        × (MOST_VARBINARY_BYTES ≡ stated.most_varbinary_bytes) × (MOST_DECIMAL_DIGITS ≡ stated.most_decimal_digits)
        × (MOST_TABLE_WIDTH ≡ stated.most_table_width) }
    ensures node { (MOST_PEERS ≡ stated.most_peers) × (MOST_ROWS ≡ stated.most_rows)
        × (MOST_WRITE_ROWS ≡ stated.most_write_rows) × (MOST_UNROUTED_CHANGES ≡ stated.most_unrouted_changes)
        × (MOST_COUNT ≡ stated.most_count) }
    ensures texts { (MOST_LINE_BYTES ≡ stated.most_line_bytes) × (MOST_INPUT_BYTES ≡ stated.most_input_bytes)
        × (MOST_PART_BYTES ≡ stated.most_part_bytes) }
{}
