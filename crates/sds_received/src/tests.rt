//! Texts that are written by hand, each with the batches that it has.
ghost use Rattle.std.specs.Prelude.{◌≡◌, IfOk};
ghost use Rattle.std.specs.Str.{chars};
ghost use Rattle.sds_trade.specs.worked.Entries.{channel_def};
ghost use Rattle.sds_received.specs.TwoChannels.{two_channels};

use crate::{channels_of, expressions_are_of_characters, read_batches};
use sds_base::{List, NoMemory, Txt};
use sds_types::{Algorithm, BatchDoc, ChannelDef, Config};
use std::alloc::Global;
use std::test::Fail;

/// What stands before the batches.
const HEAD: &'static str = "nodeid,corp\nbinary,BASE64\n";

/// A batch with a row, and one without.
const ORDERS: &'static str = "channel,orders\nbatch,2\ntable,item\nkeys,id\ncolumns,id,name\n\
    insert,\"1\",\"pen\"\ncommit,2\n";

const STOCK: &'static str = "channel,stock\nbatch,3\ncommit,3\n";

/// A batch whose `commit` line has another id.
const OTHER: &'static str = "channel,stock\nbatch,4\ncommit,5\n";

/// The head and these texts of batches.
fn text(alloc: Global, parts: &[&str]) -> Result<Vec<u8>, NoMemory> {
    let mut text = Vec::new(alloc);
    text.extend_from_slice(HEAD.as_bytes())?;
    for part in parts {
        text.extend_from_slice(part.as_bytes())?;
    }
    Ok(text)
}

/// Batches in words: the channel, the id and the number of rows of each.
fn told(alloc: Global, docs: &[BatchDoc]) -> Result<String, NoMemory> {
    let mut told = String::new(alloc);
    for doc in docs {
        let channel = doc.channel.as_str();
        let id = doc.batch;
        let rows = doc.rows.inner().len();
        let said = format!(in alloc; "{channel} {id}:{rows};")?;
        told.push_str(said.as_str())?;
    }
    Ok(told)
}

#[test]
fn a_text_gives_its_batches_up_to_the_line_that_breaks_it(rt: HostRuntime) -> Result<(), Fail> {
    let alloc = rt.alloc();
    let cases: [(&'static [&'static str], &'static str); 7] = [
        (&[], ""),
        (&[ORDERS], "orders 2:1;"),
        (&[STOCK, ORDERS], "stock 3:0;orders 2:1;"),
        (&[STOCK, OTHER, ORDERS], "stock 3:0;"),
        (&[OTHER], ""),
        (&[ORDERS, "no directive\n", STOCK], "orders 2:1;"),
        (&[ORDERS, "channel,stock\nbatch,3\n"], "orders 2:1;"),
    ];
    for (parts, due) in &cases {
        let docs = read_batches(alloc, text(alloc, *parts)?.as_slice())?;
        let said = told(alloc, docs.inner().as_slice())?;
        assert_eq!(rt; said.as_str(), *due);
    }
    Ok(())
}

fn channel(alloc: Global, id: &str, order: u32) -> Result<ChannelDef, NoMemory>
    ensures { IfOk result (λ def. def ≡ channel_def (chars id.now) order) }
{
    Ok(ChannelDef {
        id: Txt::copied(alloc, id)?,
        processing_order: order,
        max_batch_size: 100,
        max_batch_to_send: 10,
        batch_algorithm: Algorithm::Default,
    })
}

fn channels(alloc: Global) -> Result<List<ChannelDef>, NoMemory>
    ensures { IfOk result (λ channels. channels ≡ two_channels.channels) }
{
    let mut channels = List::new(alloc);
    channels.push(channel(alloc, "orders", 20)?)?;
    channels.push(channel(alloc, "stock", 10)?)?;
    Ok(channels)
}

/// A configuration of the channels `orders` and `stock`.
fn config(alloc: Global) -> Result<Config, NoMemory>
    ensures { IfOk result (λ config. config ≡ two_channels) }
{
    Ok(Config {
        groups: List::new(alloc),
        links: List::new(alloc),
        channels: channels(alloc)?,
        tables: List::new(alloc),
        triggers: List::new(alloc),
        routers: List::new(alloc),
        trigger_routers: List::new(alloc),
        transforms: List::new(alloc),
        conflicts: List::new(alloc),
    })
}

#[test]
fn channels_are_found_by_their_names(rt: HostRuntime) -> Result<(), Fail> {
    let alloc = rt.alloc();
    let config = config(alloc)?;
    expressions_are_of_characters(&config);
    let other = "channel,others\nbatch,6\ncommit,6\n";
    let text = text(alloc, &[STOCK, ORDERS, other, STOCK])?;
    let docs = read_batches(alloc, text.as_slice())?;
    let places = channels_of(alloc, &config, docs.inner().as_slice())?;
    let due: [u32; 4] = [1, 0, 2, 1];
    assert_eq!(rt; places.as_slice(), due.as_slice());
    Ok(())
}
