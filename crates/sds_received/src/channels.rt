//! The places of batches' channels in the configuration.
ghost use Rattle.std.specs.Prelude.{◌≡◌, ◌<◌, List, IfOk, length, map};
ghost use Rattle.std.specs.List.{All};
ghost use Rattle.sds_types.specs.declared.batch.OutBatch.{OutBatch};
ghost use Rattle.sds_types.specs.declared.document.BatchDoc as document;
ghost use Rattle.sds_trade.specs.rules.Outcomes as outcome;
ghost use Rattle.sds_trade.specs.rules.Sound.{IsSound};
ghost use Rattle.sds_history.specs.history.Acts.{State};
ghost use Rattle.sds_history.specs.history.Documents.{doc_of_batch};
ghost use Rattle.sds_received.specs.Places.{place_in};

use sds_base::{NoMemory, Txt};
use sds_types::{BatchDoc, Config};
use std::alloc::Global;

/// The place of each batch's channel in the configuration; for a channel that it doesn't have, the
/// number of its channels. So of batches that a node wrote under this configuration they are the
/// channels.
pub fn channels_of(alloc: Global, config: &Config, docs: &[BatchDoc]) -> Result<Vec<u32>, NoMemory>
    requires { IsSound config.now }
    ensures places { IfOk result (λ places. (sender : State) (batches : List OutBatch)
        → All (λ (batch : OutBatch). batch.channel < length config.now.channels) batches
        → docs.now ≡ map (doc_of_batch config.now sender) batches
        → places.items ≡ map (λ (batch : OutBatch). batch.channel) batches) }
{
    places_of(alloc, config, docs)
}

fn places_of(alloc: Global, config: &Config, docs: &[BatchDoc]) -> Result<Vec<u32>, NoMemory>
    ensures { IfOk result (λ places. places.items
        ≡ map (λ (doc : document.BatchDoc). place_in config.now doc.channel) docs.now) }
{
    let mut places = Vec::with_capacity(alloc, docs.len())?;
    for doc in docs {
        places.push(place_of(config, &doc.channel)?)?;
    }
    Ok(places)
}

/// The place of the channel of a name, or the number of the channels. One past 32 bits, which no
/// configuration has, is out of memory.
fn place_of(config: &Config, name: &Txt) -> Result<u32, NoMemory>
    ensures { IfOk result (λ place. place ≡ place_in config.now name.now) }
{
    let place = match find_channel(config, name) {
        Some(place) => place,
        None => config.channels.inner().len(),
    };
    match u32::try_from(place) {
        Ok(place) => Ok(place),
        Err(_) => Err(NoMemory),
    }
}

fn find_channel(config: &Config, name: &Txt) -> Option<usize>
    ensures { result ≡ outcome.channel_place config.now name.now }
{
    let channels = config.channels.inner().as_slice();
    channels.iter().position(|channel| channel.id == *name)
}
