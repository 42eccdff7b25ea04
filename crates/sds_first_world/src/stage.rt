// The nodes of a rehearsal, and what each event does to them and prints.
ghost use Rattle.std.specs.Prelude.{◌≡◌, ◌<◌, ◌+◌, ◌++◌, ◌∷◌, ◌==◌, ◌^◌, [], ℕ, List, Ok, Some, None, IfOk, IfSome, OnOk, ◌≢◌, length, map, string_bytes, true, if◌then◌else◌};
ghost use Rattle.sds_value.specs.Names.{is_name_text};
ghost use Rattle.sds_value.specs.declared.row.Peer.{Peer};
ghost use Rattle.sds_first_spec.specs.declared.batch.Sent.{Sent};
ghost use Rattle.sds_first_spec.specs.Acts.{History};
ghost use Rattle.sds_first_spec.specs.Calls.{offer_answer, acks_answer};
ghost use Rattle.sds_first_spec.specs.Happens.{batches_in, happens, sent, message_from, delivered, answered, reply_to};
ghost use Rattle.sds_first_spec.specs.History.{state_of};
ghost use Rattle.sds_first_spec.specs.One.{one, paired};
ghost use Rattle.sds_first_spec.specs.Screen.{printed_by, send_line, deliver_line, answer_line};
ghost use Rattle.sds_first_spec.specs.World.{Message, Reply, World, history_of};
ghost use Rattle.sds_first_laws.specs.Loads.{sent_at};
ghost use Rattle.sds_first_node.specs.NewRows.{ArePairRows};
ghost use Rattle.sds_first_world.specs.Settling.{last_by, settled_by, last_said};
ghost use Rattle.sds_first_world.specs.Playing.{NodePlays, NodesPlay, Waits, Stands, AreToMeet, MayPush, MayPlay, HasPlayed, TakesAs, peer_called};
ghost use Rattle.sds_first_world.specs.Sound.{IsSoundEvent};

use crate::Line;
use crate::nodes::{
    Named, deliver_at, message_at, peer_in, place_in, put_tables_at, route_at, take_acks_at,
    write_at,
};
use crate::text::{
    answer_line, deliver_line, open_line, register_line, route_line, send_line, write_line,
};
use sds_base::{List, NoMemory, Twin, Txt};
use sds_first_node::Node;
use sds_first_spec::{Sent, WorldEvent};
use sds_types::{Ack, TxRow};
use sds_value::Peer;
use std::alloc::Global;

/// The nodes that have met, the peers that wait to become nodes, and how many messages and replies there were.
#[derive(Drop)]
pub(crate) struct Stage {
    alloc: Global,
    peers: Vec<Peer>,
    nodes: Vec<Named>,
    messages: u64,
    replies: u64,
}

impl Stage {
    /// The stage before the first event.
    pub(crate) fn new(alloc: Global) -> Stage
        ensures nodes { result.nodes.items ≡ [] }
        ensures peers { result.peers.items ≡ [] }
        ensures messages { result.messages ≡ 0 }
        ensures replies { result.replies ≡ 0 }
    {
        Stage {
            alloc,
            peers: Vec::new(alloc),
            nodes: Vec::new(alloc),
            messages: 0,
            replies: 0,
        }
    }

    /// The number of the last accepted write at the first node of the writer whose write begins with a line, or 0.
    pub(crate) fn last_said(&self, line: &Line) -> u64
        ensures { result ≡ last_said self.now.nodes.items line.now }
    {
        match line {
            Line::Write { writer, .. } => self.last_number(writer),
            _ => 0,
        }
    }

    /// The number of a writer's last accepted write at the first node, or 0.
    fn last_number(&self, writer: &Txt) -> u64
        ensures { result ≡ last_by writer.now self.now.nodes.items }
    {
        match self.nodes.first() {
            Some(named) => named.node.last_number(writer.as_str()),
            None => 0,
        }
    }

    /// Whether every batch that the first node made is known to be loaded.
    pub(crate) fn is_settled(&self) -> bool
        ensures { result ≡ settled_by self.now.nodes.items }
    {
        match self.nodes.first() {
            Some(named) => named.node.is_settled(),
            None => true,
        }
    }

    /// A node is made, which waits until it meets another.
    pub(crate) fn add_peer(&mut self, peer: Peer) -> Result<(), NoMemory>
        ensures { OnOk result ((w : World) → Waits self.old w → Waits self.new (happens one w (WorldEvent.Node peer))) }
    {
        self.peers.push(peer)?;
        Ok(())
    }

    /// The peer of an id that waits to become a node.
    fn waiting(&self, id: &Txt) -> Result<Option<Peer>, NoMemory>
        ensures { IfOk result (λ found. found ≡ peer_called id.now self.now.peers.items) }
    {
        match peer_in(&self.peers, id) {
            Some(peer) => Ok(Some(peer.twin(self.alloc)?)),
            None => Ok(None),
        }
    }

    /// A node that has met another.
    fn make_node(&self, me: &Txt, other: &Txt) -> Result<Option<Named>, NoMemory>
        ensures { IfOk result (λ made. (a b : Peer) → peer_called me.now self.now.peers.items ≡ Some a → peer_called other.now self.now.peers.items ≡ Some b → a.id ≡ me.now
            → IfSome made (λ (named : Named). NodePlays named (record { opening = paired a b; acts = [] })) × (made ≢ None)) }
    {
        let Some(peer) = self.waiting(me)? else {
            return Ok(None);
        };
        let Some(other) = self.waiting(other)? else {
            return Ok(None);
        };
        let id = me.twin(self.alloc)?;
        let node = Node::new(self.alloc, peer, other)?;
        Ok(Some(Named { id, node }))
    }

    /// A node registers at another: both are made, each with the other as its peer.
    fn meet(&mut self, asks: &Txt, at: &Txt) -> Result<(), NoMemory>
        ensures { OnOk result ((w : World) → Waits self.old w → AreToMeet asks.now at.now w → Stands self.new (happens one w (WorldEvent.Register asks.now at.now))) }
    {
        let Some(parent) = self.make_node(at, asks)? else {
            return Ok(());
        };
        let Some(child) = self.make_node(asks, at)? else {
            return Ok(());
        };
        self.nodes.push(parent)?;
        self.nodes.push(child)?;
        Ok(())
    }

    /// A node registers at another.
    fn register(&mut self, asks: &Txt, at: &Txt, out: &mut Vec<u8>) -> Result<(), NoMemory>
        ensures { OnOk result ((w : World) → Waits self.old w → AreToMeet asks.now at.now w
            → Stands self.new (happens one w (WorldEvent.Register asks.now at.now)) × (out.new.items ≡ out.old.items ++ printed_by one w (WorldEvent.Register asks.now at.now))) }
    {
        self.meet(asks, at)?;
        let line = register_line(self.alloc, asks, at)?;
        put(&line, out)?;
        Ok(())
    }

    /// A write at a node.
    fn write(
        &mut self,
        id: &Txt,
        writer: &Txt,
        number: u64,
        rows: &List<TxRow>,
        out: &mut Vec<u8>,
    ) -> Result<(), NoMemory>
        requires name { is_name_text writer.now ≡ true }
        requires rows { ArePairRows rows.now }
        ensures { OnOk result ((w : World) (h : History) → Stands self.old w → history_of id.now w.nodes ≡ Some h
            → Stands self.new (happens one w (WorldEvent.Write id.now writer.now number rows.now)) × (out.new.items ≡ out.old.items ++ printed_by one w (WorldEvent.Write id.now writer.now number rows.now))) }
    {
        let Some(place) = place_in(&self.nodes, id) else {
            return Ok(());
        };
        let answer = write_at(&mut self.nodes, place, writer, number, rows.inner())?;
        let line = write_line(self.alloc, id, writer, number, &answer)?;
        put(&line, out)?;
        Ok(())
    }

    /// A routing run at a node.
    fn route(&mut self, id: &Txt, out: &mut Vec<u8>) -> Result<(), NoMemory>
        ensures { OnOk result ((w : World) (h : History) → Stands self.old w → history_of id.now w.nodes ≡ Some h
            → Stands self.new (happens one w (WorldEvent.Route id.now)) × (out.new.items ≡ out.old.items ++ printed_by one w (WorldEvent.Route id.now))) }
    {
        let Some(place) = place_in(&self.nodes, id) else {
            return Ok(());
        };
        let answer = route_at(&mut self.nodes, place)?;
        let line = route_line(self.alloc, id, &answer)?;
        put(&line, out)?;
        Ok(())
    }

    /// A node's message to another is sent.
    fn send(&mut self, from: &Txt, to: &Txt, out: &mut Vec<u8>) -> Result<Vec<Sent>, NoMemory>
        ensures { IfOk result (λ sents. (w : World) (h : History) (ids : List ℕ) → Stands self.old w → length w.messages < 2 ^ 62 → history_of from.now w.nodes ≡ Some h
            → offer_answer one (state_of one h) to.now [] ≡ Ok ids
            → (sents.items ≡ map (sent_at one (state_of one h)) ids) × Stands self.new (sent one from.now to.now w)
            × (out.new.items ≡ out.old.items ++ send_line (length w.messages + 1) from.now to.now (length sents.items))) }
    {
        let nodes = self.nodes.as_slice();
        let Some(place) = place_in(nodes, from) else {
            return Ok(Vec::new(self.alloc));
        };
        let sents = message_at(self.alloc, nodes, place, to)?;
        self.messages = next(self.messages);
        let count = sents.len() as u64;
        let line = send_line(self.alloc, self.messages, from, to, count)?;
        put(&line, out)?;
        Ok(sents)
    }

    /// A message's batches are delivered.
    fn receive(
        &mut self,
        from: &Txt,
        to: &Txt,
        sents: &[Sent],
        out: &mut Vec<u8>,
    ) -> Result<Vec<Ack>, NoMemory>
        ensures { IfOk result (λ acks. (w : World) (message : Message) (h : History) → Stands self.old w → length w.replies < 2 ^ 62 → message.sender ≡ from.now → message.receiver ≡ to.now
            → history_of to.now w.nodes ≡ Some h → TakesAs message sents.now h
            → (acks.items ≡ (reply_to one message w).acks) × Stands self.new (delivered one message w)
            × (out.new.items ≡ out.old.items ++ deliver_line (length w.messages) (length w.replies + 1) acks.items)) }
    {
        let Some(place) = place_in(&self.nodes, to) else {
            return Ok(Vec::new(self.alloc));
        };
        let acks = deliver_at(self.alloc, &mut self.nodes, place, from, sents)?;
        self.replies = next(self.replies);
        let line = deliver_line(self.alloc, self.messages, self.replies, &acks)?;
        put(&line, out)?;
        Ok(acks)
    }

    /// A reply's acks are answered.
    fn answer(
        &mut self,
        from: &Txt,
        to: &Txt,
        acks: &[Ack],
        out: &mut Vec<u8>,
    ) -> Result<(), NoMemory>
        ensures { OnOk result ((w : World) (reply : Reply) (h : History) → Stands self.old w → reply.sender ≡ from.now → reply.receiver ≡ to.now → reply.acks ≡ acks.now
            → history_of from.now w.nodes ≡ Some h
            → Stands self.new (answered one reply w) × (out.new.items ≡ out.old.items ++ answer_line (length w.replies) (acks_answer (state_of one h) to.now acks.now))) }
    {
        let Some(place) = place_in(&self.nodes, from) else {
            return Ok(());
        };
        let answer = take_acks_at(&mut self.nodes, place, to, acks)?;
        let line = answer_line(self.alloc, self.replies, &answer)?;
        put(&line, out)?;
        Ok(())
    }

    /// A node's message to another: sent, and where it holds a batch delivered and answered.
    fn push(&mut self, from: &Txt, to: &Txt, out: &mut Vec<u8>) -> Result<(), NoMemory>
        ensures { OnOk result ((w : World) → Stands self.old w → MayPush from.now to.now w
            → Stands self.new (happens one w (WorldEvent.Push from.now to.now)) × (out.new.items ≡ out.old.items ++ printed_by one w (WorldEvent.Push from.now to.now))) }
    {
        let sents = self.send(from, to, out)?;
        if sents.is_empty() {
            return Ok(());
        }
        let acks = self.receive(from, to, &sents, out)?;
        self.answer(from, to, &acks, out)?;
        Ok(())
    }

    /// Shows a node's tables.
    fn show(&self, id: &Txt, out: &mut Vec<u8>) -> Result<(), NoMemory>
        ensures { OnOk result ((w : World) (h : History) → Stands self.now w → history_of id.now w.nodes ≡ Some h → out.new.items ≡ out.old.items ++ printed_by one w (WorldEvent.Show id.now)) }
    {
        let nodes = self.nodes.as_slice();
        let Some(place) = place_in(nodes, id) else {
            return Ok(());
        };
        put_tables_at(nodes, place, out)?;
        Ok(())
    }

    /// Lets an event happen, and writes what it prints behind `out`.
    pub(crate) fn happen(&mut self, event: WorldEvent, out: &mut Vec<u8>) -> Result<(), NoMemory>
        requires { IsSoundEvent event }
        ensures { OnOk result ((w : World) → MayPlay event self.old w → HasPlayed event self.new (happens one w event) × (out.new.items ≡ out.old.items ++ printed_by one w event)) }
    {
        match event {
            WorldEvent::Node { peer } => self.add_peer(peer)?,
            WorldEvent::Open {
                at,
                group,
                external,
            } => {
                let line = open_line(self.alloc, &at, &group, &external)?;
                put(&line, out)?;
            }
            WorldEvent::Register { asks, at } => self.register(&asks, &at, out)?,
            WorldEvent::Write {
                node,
                writer,
                number,
                rows,
            } => self.write(&node, &writer, number, &rows, out)?,
            WorldEvent::Route { node } => self.route(&node, out)?,
            WorldEvent::Push { from, to } => self.push(&from, &to, out)?,
            WorldEvent::Show { node } => self.show(&node, out)?,
        }
        Ok(())
    }
}

/// The number behind this one, as far as a u64 goes.
fn next(number: u64) -> u64
    ensures { number < 2 ^ 62 → result ≡ number + 1 }
{
    number.saturating_add(1)
}

/// Writes a line behind `out`.
fn put(line: &String, out: &mut Vec<u8>) -> Result<(), NoMemory>
    ensures { OnOk result (out.new.items ≡ out.old.items ++ string_bytes line.now) }
{
    out.extend_from_slice(line.as_bytes())?;
    Ok(())
}
