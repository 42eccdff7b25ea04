// The nodes of a rehearsal, each with its id, and their calls by a place in the list.
ghost use Rattle.std.specs.Prelude.{◌≡◌, ◌<◌, ◌++◌, ℕ, List, All, IfOk, MatchOption, OnOk, Ok, Some, None, [], length, map, true, vec_len};
ghost use Rattle.std.specs.List.{position};
ghost use Rattle.sds_value.specs.Names.{is_name_text};
ghost use Rattle.sds_first_node.specs.NewRows.{ArePairRows};
ghost use Rattle.sds_value.specs.declared.row.DocRow.{DocRow};
ghost use Rattle.sds_first_spec.specs.declared.batch.Sent.{Sent};
ghost use Rattle.sds_first_spec.specs.Acts.{Act, History};
ghost use Rattle.sds_first_spec.specs.Calls.{write_answer, write_acts, route_answer, route_acts, acks_answer, acks_acts, offer_answer};
ghost use Rattle.sds_first_spec.specs.Happens.{with_history_acts};
ghost use Rattle.sds_first_spec.specs.History.{state_of};
ghost use Rattle.sds_first_spec.specs.One.{one};
ghost use Rattle.sds_first_spec.specs.Outcome.{is_whole_insert};
ghost use Rattle.sds_first_laws.specs.Loads.{after_loads, loads_acks, sent_at};
ghost use Rattle.sds_first_spec.specs.Shown.{tables_text};
ghost use Rattle.sds_first_world.specs.Playing.{NodesPlay, is_called, HistoryAt, IsNowhere, IsPlaced, peer_called};

use crate::message::{deliver, message_to};
use sds_base::{NoMemory, Txt};
use sds_first_node::Node;
use sds_first_spec::Sent;
use sds_types::{Ack, AckRefusal, NodeFault, TxRow, WriteRefusal, Written};
use sds_value::Peer;
use std::alloc::Global;

/// A node and its id.
#[derive(Drop)]
pub(crate) struct Named {
    pub(crate) id: Txt,
    pub(crate) node: Node,
}

/// The first of these peers that has an id.
pub(crate) fn peer_in<'a>(peers: &'a [Peer], id: &Txt) -> Option<&'a Peer>
    ensures { MatchOption result (peer_called id.now peers.now ≡ None) (λ peer. peer_called id.now peers.now ≡ Some peer.now) }
{
    for peer in peers {
        if peer.id == *id {
            return Some(peer);
        }
    }
    None
}

/// The place of the node of an id.
pub(crate) fn place_in(nodes: &[Named], id: &Txt) -> Option<usize>
    ensures { MatchOption result (IsNowhere id.now nodes.now) (IsPlaced id.now nodes.now) }
{
    first_place(nodes, id)
}

fn first_place(nodes: &[Named], id: &Txt) -> Option<usize>
    ensures { result ≡ position (is_called id.now) nodes.now }
{
    nodes.iter().position(|named| named.id == *id)
}

/// A write at the node at a place, and what the node answers.
pub(crate) fn write_at(
    nodes: &mut Vec<Named>,
    place: usize,
    writer: &Txt,
    number: u64,
    rows: &[TxRow],
) -> Result<Result<Written, WriteRefusal>, NoMemory>
    requires place { place < vec_len nodes.old }
    requires name { is_name_text writer.now ≡ true }
    requires rows { ArePairRows rows.now }
    ensures { IfOk result (λ answer. (id : List ℕ) (hs : List History) (at : HistoryAt id nodes.old.items place hs)
        → (answer ≡ write_answer one (state_of one at.h) writer.now number rows.now) × NodesPlay nodes.new.items (with_history_acts id (write_acts answer writer.now number rows.now ++ at.h.acts) hs)) }
{
    let named = &mut nodes[place];
    match named.node.write(writer.as_str(), number, rows) {
        Err(WriteRefusal::Fault(NodeFault::NoMemory)) => Err(NoMemory),
        answer => Ok(answer),
    }
}

/// A routing run of the node at a place, and what the node answers.
pub(crate) fn route_at(
    nodes: &mut Vec<Named>,
    place: usize,
) -> Result<Result<u64, NodeFault>, NoMemory>
    requires { place < vec_len nodes.old }
    ensures { IfOk result (λ answer. (id : List ℕ) (hs : List History) (at : HistoryAt id nodes.old.items place hs)
        → (answer ≡ route_answer one (state_of one at.h)) × NodesPlay nodes.new.items (with_history_acts id (route_acts answer (state_of one at.h) ++ at.h.acts) hs)) }
{
    let named = &mut nodes[place];
    match named.node.route() {
        Err(NodeFault::NoMemory) => Err(NoMemory),
        answer => Ok(answer),
    }
}

/// The node at a place takes what another says of batches, and what it answers.
pub(crate) fn take_acks_at(
    nodes: &mut Vec<Named>,
    place: usize,
    from: &Txt,
    acks: &[Ack],
) -> Result<Result<u64, AckRefusal>, NoMemory>
    requires { place < vec_len nodes.old }
    ensures { IfOk result (λ answer. (id : List ℕ) (hs : List History) (at : HistoryAt id nodes.old.items place hs)
        → (answer ≡ acks_answer (state_of one at.h) from.now acks.now) × NodesPlay nodes.new.items (with_history_acts id (acks_acts answer from.now acks.now ++ at.h.acts) hs)) }
{
    let named = &mut nodes[place];
    match named.node.take_acks(from.as_str(), acks) {
        Err(AckRefusal::Fault(NodeFault::NoMemory)) => Err(NoMemory),
        answer => Ok(answer),
    }
}

/// The node at a place takes the batches of a message from another, and what it says of them.
pub(crate) fn deliver_at(
    alloc: Global,
    nodes: &mut Vec<Named>,
    place: usize,
    from: &Txt,
    sents: &[Sent],
) -> Result<Vec<Ack>, NoMemory>
    requires { place < vec_len nodes.old }
    ensures { IfOk result (λ acks. (id : List ℕ) (hs : List History) (at : HistoryAt id nodes.old.items place hs) → All (λ (sent : Sent). All (λ (doc : DocRow). is_whole_insert one doc ≡ true) sent.rows) sents.now
        → (acks.items ≡ loads_acks one from.now 0 sents.now at.h) × ((acts : List Act) → after_loads one from.now 0 sents.now at.h ≡ record { opening = at.h.opening; acts = acts } → NodesPlay nodes.new.items (with_history_acts id acts hs))) }
{
    let named = &mut nodes[place];
    deliver(alloc, &mut named.node, from, sents)
}

/// The batches that the next message of the node at a place to another takes, with their rows.
pub(crate) fn message_at(
    alloc: Global,
    nodes: &[Named],
    place: usize,
    to: &Txt,
) -> Result<Vec<Sent>, NoMemory>
    requires { place < length nodes.now }
    ensures { IfOk result (λ sents. (id : List ℕ) (hs : List History) (at : HistoryAt id nodes.now place hs) (ids : List ℕ) → offer_answer one (state_of one at.h) to.now [] ≡ Ok ids
        → sents.items ≡ map (sent_at one (state_of one at.h)) ids) }
{
    let named = &nodes[place];
    message_to(alloc, &named.node, to)
}

/// Writes the text of the tables of the node at a place behind `out`.
pub(crate) fn put_tables_at(
    nodes: &[Named],
    place: usize,
    out: &mut Vec<u8>,
) -> Result<(), NoMemory>
    requires { place < length nodes.now }
    ensures { OnOk result ((id : List ℕ) (hs : List History) (at : HistoryAt id nodes.now place hs) → out.new.items ≡ out.old.items ++ tables_text one (state_of one at.h).tables) }
{
    let named = &nodes[place];
    named.node.put_tables(out)
}
