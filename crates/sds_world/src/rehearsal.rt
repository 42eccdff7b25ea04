//! The nodes of a rehearsal, and the messages and replies that it holds.
ghost use Rattle.std.specs.Prelude.{◌≡◌, ℕ, IsTrue, List, OnOk};
ghost use Rattle.std.specs.List.{All};
ghost use Rattle.sds_doclaws.specs.Writable.{HasFewKeys};
ghost use Rattle.sds_trade.specs.rules.Sound.{IsSound};
ghost use Rattle.sds_nodelaws.specs.Asked.{is_named_peer, is_noise};
ghost use Rattle.sds_types.specs.declared.world_event.WorldEvent.TheVariants as event;
ghost use Rattle.sds_history.specs.world.Worlds.{empty_world};

use sds_base::{Bytes, NoMemory, Twin, Txt};
use sds_stage::Stage;
use sds_types::{Config, Reply, WorldEvent};
use sds_value::Peer;
use std::alloc::Global;

/// A message as it travels: a text, from a node to another.
#[derive(Drop)]
pub struct SentMessage {
    pub(crate) from: Txt,
    pub(crate) to: Txt,
    pub(crate) text: Bytes,
}

/// A rehearsal: its nodes under one configuration, the messages that were sent, and the replies
/// that were made.
#[derive(Drop)]
pub struct Rehearsal {
    pub(crate) stage: Stage,
    pub(crate) messages: Vec<SentMessage>,
    pub(crate) replies: Vec<Reply>,
}

impl Rehearsal {
    ghost use Rattle.sds_world.specs.Playing.{IsAskedEvent, IsOfNodes, IsRehearsal, Plays, PlaysWorld};

    /// A rehearsal before its first event. Each opening of a registration gives the token of this
    /// noise.
    pub fn new(alloc: Global, config: Config, noise: [u8; 16]) -> Rehearsal
        requires config { IsSound config }
        requires few { All (HasFewKeys config) config.transforms }
        requires noise { IsTrue (is_noise noise) }
        ensures rehearsal { IsRehearsal result }
        ensures plays { PlaysWorld result empty_world }
        ensures config { result.stage.config ≡ config }
        ensures noise { result.stage.noise ≡ noise }
    {
        Rehearsal {
            stage: Stage::new(alloc, config, noise),
            messages: Vec::new(alloc),
            replies: Vec::new(alloc),
        }
    }

    /// Lets an event happen, and writes what it prints. A node whose id another has isn't made.
    pub fn happen(&mut self, event: &WorldEvent, out: &mut Vec<u8>) -> Result<(), NoMemory>
        requires rehearsal { IsRehearsal self.old }
        requires asked { IsAskedEvent event.now }
        ensures rehearsal { OnOk result (IsRehearsal self.new) }
        ensures plays { OnOk result (Plays self.old self.new out.old.items out.new.items event.now) }
    {
        match event {
            WorldEvent::Send { from, to, channels } => {
                self.send(from.as_str(), to.as_str(), channels.inner(), out)?;
                Ok(())
            }
            WorldEvent::Deliver { message, channels } => {
                self.deliver(*message, channels.inner(), out)?;
                Ok(())
            }
            WorldEvent::Answer { reply } => self.answer(*reply, out),
            WorldEvent::Push { from, to } => self.push(from.as_str(), to.as_str(), out),
            WorldEvent::Pull { to, from } => self.pull(to.as_str(), from.as_str(), out),
            WorldEvent::Wire { message } => self.wire(*message, out),
            event => self.happen_at_nodes(event, out),
        }
    }

    /// Lets an event happen that is about nodes alone.
    fn happen_at_nodes(&mut self, event: &WorldEvent, out: &mut Vec<u8>) -> Result<(), NoMemory>
        requires rehearsal { IsRehearsal self.old }
        requires asked { IsAskedEvent event.now }
        ensures rehearsal { OnOk result (IsRehearsal self.new) }
        ensures plays { IsOfNodes event.now → OnOk result
            (Plays self.old self.new out.old.items out.new.items event.now) }
    {
        match event {
            WorldEvent::Node { peer } => self.add(peer),
            WorldEvent::Open {
                at,
                group,
                external,
            } => self
                .stage
                .open(at.as_str(), group.as_str(), external.as_str(), out),
            WorldEvent::Register { asks, at } => {
                self.stage.register(asks.as_str(), at.as_str(), out)
            }
            WorldEvent::Write {
                node,
                writer,
                number,
                rows,
            } => self
                .stage
                .write(node.as_str(), writer.as_str(), *number, rows.inner(), out),
            WorldEvent::Route { node } => self.stage.route(node.as_str(), out),
            WorldEvent::Show { node } => self.stage.show(node.as_str(), out),
            WorldEvent::Batches { node } => self.stage.batches(node.as_str(), out),
            WorldEvent::Crash { node } => self.stage.crash(node.as_str(), out),
            WorldEvent::Fault { node, stands } => self.stage.fault(node.as_str(), *stands),
            _ => Ok(()),
        }
    }

    /// A node is made, unless another has its id.
    fn add(&mut self, peer: &Peer) -> Result<(), NoMemory>
        requires rehearsal { IsRehearsal self.old }
        requires names { IsTrue (is_named_peer peer.now) }
        ensures rehearsal { OnOk result (IsRehearsal self.new) }
        ensures plays { OnOk result ((text : List ℕ)
            → Plays self.old self.new text text (event.Node peer.now)) }
    {
        if self.stage.has_node(peer.id.as_str()) {
            return Ok(());
        }
        let peer = peer.twin(self.stage.alloc())?;
        self.stage.add(peer)
    }
}
