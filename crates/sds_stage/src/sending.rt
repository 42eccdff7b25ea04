//! The messages of the nodes of a rehearsal: written, delivered and answered.
ghost use Rattle.std.specs.Prelude.{◌≡◌, ◌++◌, IfOk, IfSome, IsTrue};
ghost use Rattle.std.specs.List.{All, list_all};
ghost use Rattle.std.specs.Str.{chars};
ghost use Rattle.sds_outside.specs.MemKeeping.{IsKeptOpen, kept_told};
ghost use Rattle.sds_types.specs.declared.config.Config as configs;
ghost use Rattle.sds_types.specs.declared.message.Message.{Message};
ghost use Rattle.sds_types.specs.declared.message.Reply as replies;
ghost use Rattle.sds_doclaws.specs.Writable.{HasFewKeys};
ghost use Rattle.sds_history.specs.world.Worlds.{Node as Stood, World};
ghost use Rattle.sds_node.specs.Meaning.{IsNode};
ghost use Rattle.sds_nodelaws.specs.Asked.{is_ack};
ghost use Rattle.sds_stage.specs.Placed.{IsSomewhere};
ghost use Rattle.sds_stage.specs.Sending.{Exchanges, Sends};
ghost use Rattle.sds_stage.specs.Standing.{Stands};

use crate::Stage;
use crate::answering::answer_at;
use crate::delivering::deliver_at;
use crate::finding::place_in;
use crate::showing::settle_at;
use crate::ways::{may_exchange, may_send};
use sds_base::{List, NoMemory};
use sds_node::Node;
use sds_outside::MemKeeper;
use sds_received::expressions_are_of_characters;
use sds_types::{Ack, AckRefusal, Action, Reply, SyncRefusal};

impl Stage {
    ghost use Rattle.sds_stage.specs.Playing.{IsStage, PlaysWorld};
    ghost use Rattle.sds_stage.specs.Sending.{AsksWay, HasAnswered, HasDelivered, IsPlaying, MakesMessage};

    /// Writes the message of a node to another that goes next, of these channels or of all where
    /// none is named, and tells how many batches it has, or why it isn't made. None where there is
    /// no node of this id.
    pub fn write_message(
        &mut self,
        from: &str,
        to: &str,
        channels: &[u32],
        text: &mut Vec<u8>,
    ) -> Result<Option<Result<u64, SyncRefusal>>, NoMemory>
        requires stage { IsStage self.old }
        requires plays { IsPlaying self.old }
        requires few { All (HasFewKeys self.old.config) self.old.config.transforms }
        ensures stage { IsStage self.new }
        ensures config { self.new.config ≡ self.old.config }
        ensures noise { self.new.noise ≡ self.old.noise }
        ensures plays { IfOk result (λ answer. (world : World) → PlaysWorld self.old world
            → PlaysWorld self.new world) }
        ensures makes { IfOk result (λ answer. (world : World) → PlaysWorld self.old world
            → MakesMessage self.old.config world (chars from.now) (chars to.now) channels.now
            text.old.items text.new.items answer) }
    {
        let Some(place) = place_in(&self.nodes, from) else {
            return Ok(None);
        };
        let answer = send_at(&mut self.nodes[place], to, channels, text)?;
        Ok(Some(answer))
    }

    /// Whether a node may send to another by a link that pushes, or by one that waits for a pull.
    /// None where there is no node of this id.
    pub fn may_exchange(
        &mut self,
        from: &str,
        to: &str,
        action: Action,
    ) -> Result<Option<bool>, NoMemory>
        requires stage { IsStage self.old }
        ensures stage { IsStage self.new }
        ensures config { self.new.config ≡ self.old.config }
        ensures noise { self.new.noise ≡ self.old.noise }
        ensures plays { IfOk result (λ answer. (world : World) → PlaysWorld self.old world
            → PlaysWorld self.new world) }
        ensures asks { IfOk result (λ answer. (world : World) → PlaysWorld self.old world
            → AsksWay self.old.config world (chars from.now) (chars to.now) action answer) }
    {
        let Some(place) = place_in(&self.nodes, from) else {
            return Ok(None);
        };
        let may = asks_at(&mut self.nodes[place], to, action)?;
        Ok(Some(may))
    }

    /// Delivers a message's text, its batches in the order of these channels, and the others after
    /// them: an ack of each batch that was answered, or why it isn't taken. None where there is no
    /// node of one of the two ids.
    pub fn deliver(
        &mut self,
        from: &str,
        to: &str,
        text: &[u8],
        mentions: &[u32],
    ) -> Result<Option<Result<List<Ack>, SyncRefusal>>, NoMemory>
        requires stage { IsStage self.old }
        requires few { All (HasFewKeys self.old.config) self.old.config.transforms }
        ensures stage { IsStage self.new }
        ensures config { self.new.config ≡ self.old.config }
        ensures noise { self.new.noise ≡ self.old.noise }
        ensures acks { IfOk result (λ answer. IfSome answer (λ end. IfOk end
            (λ acks. IsTrue (list_all is_ack acks)))) }
        ensures delivers { IfOk result (λ answer. (world : World) (message : Message)
            → PlaysWorld self.old world → message.from ≡ chars from.now
            → message.to ≡ chars to.now
            → HasDelivered self.old self.new world message text.now mentions.now answer) }
    {
        match place_in(&self.nodes, from) {
            Some(_) => self.deliver_to(from, to, text, mentions),
            None => Ok(None),
        }
    }

    /// Delivers a message's text of a node that is there.
    fn deliver_to(
        &mut self,
        from: &str,
        to: &str,
        text: &[u8],
        mentions: &[u32],
    ) -> Result<Option<Result<List<Ack>, SyncRefusal>>, NoMemory>
        requires stage { IsStage self.old }
        requires few { All (HasFewKeys self.old.config) self.old.config.transforms }
        requires sent { IsSomewhere (chars from.now) self.old.nodes.items }
        ensures stage { IsStage self.new }
        ensures config { self.new.config ≡ self.old.config }
        ensures noise { self.new.noise ≡ self.old.noise }
        ensures acks { IfOk result (λ answer. IfSome answer (λ end. IfOk end
            (λ acks. IsTrue (list_all is_ack acks)))) }
        ensures delivers { IfOk result (λ answer. (world : World) (message : Message)
            → PlaysWorld self.old world → message.from ≡ chars from.now
            → message.to ≡ chars to.now
            → HasDelivered self.old self.new world message text.now mentions.now answer) }
    {
        let Some(place) = place_in(&self.nodes, to) else {
            return Ok(None);
        };
        let answer = deliver_at(self.alloc, &mut self.nodes[place], from, text, mentions)?;
        Ok(Some(answer))
    }

    /// Takes a reply at the node that sent its message, and tells how many batches changed, or why
    /// it isn't taken. None where there is no such node.
    pub fn answer(&mut self, reply: &Reply) -> Result<Option<Result<u64, AckRefusal>>, NoMemory>
        requires stage { IsStage self.old }
        requires asked { IsTrue (list_all is_ack reply.now.acks) }
        ensures stage { IsStage self.new }
        ensures config { self.new.config ≡ self.old.config }
        ensures noise { self.new.noise ≡ self.old.noise }
        ensures answers { IfOk result (λ answer. (world : World) → PlaysWorld self.old world
            → HasAnswered self.old self.new world reply.now answer) }
    {
        let Some(place) = place_in(&self.nodes, reply.to.as_str()) else {
            return Ok(None);
        };
        let from = reply.from.as_str();
        let answer = answer_at(&mut self.nodes[place], from, reply.acks.inner())?;
        Ok(Some(answer))
    }
}

/// The message of a node to a peer that goes next, unless no link leads there.
fn send_at(
    node: &mut Node<MemKeeper>,
    to: &str,
    channels: &[u32],
    text: &mut Vec<u8>,
) -> Result<Result<u64, SyncRefusal>, NoMemory>
    requires node { IsNode IsKeptOpen kept_told node.old }
    requires few { All (HasFewKeys node.old.config) node.old.config.transforms }
    ensures node { IsNode IsKeptOpen kept_told node.new }
    ensures sends { IfOk result (λ answer. (config : configs.Config) (stood : Stood)
        → Stands config node.old stood → Stands config node.new stood
        × Sends config stood (chars to.now) channels.now text.old.items text.new.items answer) }
{
    settle_at(node)?;
    if !may_send(node, to) {
        return Ok(Err(SyncRefusal::NoWay));
    }
    expressions_are_of_characters(node.config());
    Ok(Ok(node.put_message(to, channels, text)?))
}

/// Whether a node may send to a peer by a link of the kind.
fn asks_at(node: &mut Node<MemKeeper>, to: &str, action: Action) -> Result<bool, NoMemory>
    requires node { IsNode IsKeptOpen kept_told node.old }
    ensures node { IsNode IsKeptOpen kept_told node.new }
    ensures asks { IfOk result (λ answer. (config : configs.Config) (stood : Stood)
        → Stands config node.old stood → Stands config node.new stood
        × Exchanges config stood (chars to.now) action answer) }
{
    settle_at(node)?;
    Ok(may_exchange(node, to, action))
}
