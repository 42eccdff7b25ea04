//! The form that each part has whose record is kept.
ghost use Rattle.std.specs.Prelude.{◌≡◌, ◌&&◌, true};
ghost use Rattle.std.specs.List.{list_all};
ghost use Rattle.sds_value.specs.Names.{is_name_text};
ghost use Rattle.sds_history.specs.history.SoundParts as sound;
ghost use Rattle.sds_records.specs.Parts.{HasKey};
ghost use Rattle.sds_records.specs.Told as stated;
ghost use Rattle.sds_records.specs.Told.{HasKeyOf};

use crate::Told;
use sds_base::Txt;
use sds_rowvalues::{columns_at, is_among, key_places};
use sds_types::{Change, Config, KeptPeer, Opening, OutBatch, Stage, Standing};
use sds_value::{Event, Peer, TableDef, is_name};

/// How many characters a token has.
const TOKEN_DIGITS: usize = 32;

/// The number of the last rule.
const MOST_RULE: u8 = 16;

/// Whether a byte is a hexadecimal digit in lower case.
fn is_token_byte(byte: u8) -> bool
    ensures { result ≡ sound.is_token_digit byte }
{
    (b'0' <= byte && byte <= b'9') || (b'a' <= byte && byte <= b'f')
}

fn all_token_bytes(bytes: &[u8]) -> bool
    ensures { result ≡ list_all sound.is_token_digit bytes.now }
{
    bytes.iter().all(|byte| is_token_byte(*byte))
}

fn are_token_bytes(bytes: &[u8]) -> bool
    ensures { result ≡ sound.is_token bytes.now }
{
    bytes.len() == TOKEN_DIGITS && all_token_bytes(bytes)
}

/// Whether a text is a token: 32 hexadecimal digits in lower case.
fn is_token(text: &Txt) -> bool
    ensures { result ≡ sound.is_token text.now }
{
    are_token_bytes(text.as_str().as_bytes())
}

/// Whether a text is a name.
fn is_named(text: &Txt) -> bool
    ensures { result ≡ is_name_text text.now }
{
    is_name(text.as_str())
}

/// Whether a node is named by names, and its group is in the configuration.
fn is_peer(config: &Config, peer: &Peer) -> bool
    ensures { result ≡ sound.is_peer config.now peer.now }
{
    is_named(&peer.id) && is_among(config.groups.inner(), &peer.group) && is_named(&peer.external)
}

/// Whether a peer and its token have their form.
fn is_kept_peer(config: &Config, kept: &KeptPeer) -> bool
    ensures { result ≡ sound.is_kept_peer config.now kept.now }
{
    is_peer(config, &kept.peer) && is_token(&kept.token)
}

/// Whether the node that an opening went to is named by a name.
fn names_node(stage: &Stage) -> bool
    ensures { result ≡ stated.names_node stage.now }
{
    match stage {
        Stage::Waiting => true,
        Stage::Given(node) => is_named(node),
        Stage::Closed(node) => is_named(node),
    }
}

/// Whether an opening has its form.
fn is_opening(config: &Config, opening: &Opening) -> bool
    ensures { result ≡ (sound.is_opening config.now opening.now
        && stated.names_node opening.now.stage) }
{
    is_among(config.groups.inner(), &opening.group)
        && is_named(&opening.external)
        && is_token(&opening.token)
        && names_node(&opening.stage)
}

/// Whether the sides of a change stand that its event has, and no other.
fn sides_stand(change: &Change) -> bool
    ensures { result ≡ stated.sides_stand change.now.event change.now.new change.now.old }
{
    match change.event {
        Event::Insert => change.new.is_some() && change.old.is_none(),
        Event::Update => change.new.is_some() && change.old.is_some(),
        Event::Delete => change.new.is_none() && change.old.is_some(),
    }
}

/// Whether the node that a change came from is named by a name.
fn has_source(source: &Option<Txt>) -> bool
    ensures { result ≡ stated.names_source source.now }
{
    match source {
        Some(node) => is_named(node),
        None => true,
    }
}

/// Whether a change has its form.
fn is_change(config: &Config, change: &Change) -> bool
    ensures { result ≡ stated.is_change config.now change.now }
{
    (change.table as usize) < config.tables.inner().len()
        && (change.channel as usize) < config.channels.inner().len()
        && sides_stand(change)
        && has_source(&change.source)
}

/// Whether the rule of an error is one.
fn is_standing(standing: Standing) -> bool
    ensures { result ≡ sound.is_standing standing }
{
    match standing {
        Standing::Erred { rule, .. } => 1 <= rule && rule <= MOST_RULE,
        Standing::New | Standing::Acked => true,
    }
}

/// Whether a batch has its form.
fn is_batch(config: &Config, batch: &OutBatch) -> bool
    ensures { result ≡ (sound.is_batch config.now batch.now && is_name_text batch.now.peer) }
{
    (batch.channel as usize) < config.channels.inner().len()
        && is_standing(batch.standing)
        && is_named(&batch.peer)
}

/// Whether a part has its form: what it is made of is in the configuration, and nodes, groups,
/// writers and external ids are named by names.
pub(crate) fn is_formed(config: &Config, told: &Told) -> bool
    ensures { result ≡ stated.is_formed config.now told.now }
{
    match told {
        Told::Me(me) => is_peer(config, me),
        Told::Counts(_) => true,
        Told::Peer(kept) => is_kept_peer(config, kept),
        Told::Opening(opening) => is_opening(config, opening),
        Told::Writer(last) => is_named(&last.writer),
        Told::Row(row) => (row.table as usize) < config.tables.inner().len(),
        Told::Change(change) => is_change(config, change),
        Told::Batch(batch) => is_batch(config, batch),
        Told::Lane(lane) => {
            (lane.channel as usize) < config.channels.inner().len() && is_named(&lane.peer)
        }
    }
}

/// Whether the key columns of a table are columns of it.
fn is_keyed(defs: &[TableDef], table: u32) -> bool
    ensures yes { result ≡ true → HasKey defs.now table }
    ensures no { HasKey defs.now table → result ≡ true }
{
    let width = columns_at(defs, table as usize).len();
    let places = key_places(defs, table as usize);
    places.iter().all(|place| (*place as usize) < width)
}

/// Whether the key columns of a row's table are columns of it.
pub(crate) fn has_key(config: &Config, told: &Told) -> bool
    ensures yes { result ≡ true → HasKeyOf config.now told.now }
    ensures no { HasKeyOf config.now told.now → result ≡ true }
{
    match told {
        Told::Row(row) => is_keyed(config.tables.inner(), row.table),
        _ => true,
    }
}
