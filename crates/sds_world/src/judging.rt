//! Whether the names of a line are there, and whether it makes a node once more.
ghost use Rattle.std.specs.Prelude.{◌≡◌, is_some, length, nat_le};
ghost use Rattle.sds_trade.specs.rules.Outcomes as outcome;
ghost use Rattle.sds_trade.specs.rules.Places as place;
ghost use Rattle.sds_history.specs.world.Worlds.{World};
ghost use Rattle.sds_screen.specs.Causes as cause;

use crate::Rehearsal;
use sds_base::Txt;
use sds_rowvalues::is_among;
use sds_types::{Config, ScenarioLine};

/// The most nodes of a rehearsal.
const MOST_NODES: usize = 1000;

impl Rehearsal {
    ghost use Rattle.sds_world.specs.Playing.{PlaysWorld};

    /// Whether the nodes, groups, messages, replies and channels that a line names are there.
    pub(crate) fn names_stand(&self, line: &ScenarioLine) -> bool
        ensures { (world : World) → PlaysWorld self.now world
            → result ≡ cause.names_stand self.now.stage.config world line.now }
    {
        match line {
            ScenarioLine::Node { peer } => self.has_group(&peer.group),
            ScenarioLine::Open { at, group, .. } => self.has_node(at) && self.has_group(group),
            ScenarioLine::Register { asks, at } => self.has_nodes(asks, at),
            ScenarioLine::Write { node, .. } => self.has_node(node),
            ScenarioLine::Row(_) | ScenarioLine::End => true,
            ScenarioLine::Route { node } => self.has_node(node),
            ScenarioLine::Send { from, to, channels } => {
                self.has_nodes(from, to) && self.has_channels(channels.inner().as_slice())
            }
            ScenarioLine::Deliver { message, channels } => {
                self.has_message(*message) && self.has_channels(channels.inner().as_slice())
            }
            ScenarioLine::Answer { reply } => self.has_reply(*reply),
            ScenarioLine::Push { from, to } => self.has_nodes(from, to),
            ScenarioLine::Pull { to, from } => self.has_nodes(to, from),
            ScenarioLine::Wire { message } => self.has_message(*message),
            ScenarioLine::Show { node } => self.has_node(node),
            ScenarioLine::Batches { node } => self.has_node(node),
            ScenarioLine::Crash { node } => self.has_node(node),
            ScenarioLine::Fault { node, .. } => self.has_node(node),
        }
    }

    /// Whether a line makes a node whose id another has, or one node too many.
    pub(crate) fn is_twice(&self, line: &ScenarioLine) -> bool
        ensures { (world : World) → PlaysWorld self.now world
            → result ≡ cause.is_twice world line.now }
    {
        match line {
            ScenarioLine::Node { peer } => self.has_node(&peer.id) || self.is_full(),
            _ => false,
        }
    }

    /// Whether there are as many nodes as there may be.
    fn is_full(&self) -> bool
        ensures { (world : World) → PlaysWorld self.now world
            → result ≡ nat_le cause.most_nodes (length world.nodes) }
    {
        MOST_NODES <= self.stage.node_count()
    }

    /// Whether a node has this id.
    fn has_node(&self, id: &Txt) -> bool
        ensures { (world : World) → PlaysWorld self.now world
            → result ≡ cause.is_node world id.now }
    {
        self.stage.has_node(id.as_str())
    }

    /// Whether two nodes have these ids.
    fn has_nodes(&self, first: &Txt, second: &Txt) -> bool
        ensures { (world : World) → PlaysWorld self.now world
            → result ≡ cause.are_nodes world first.now second.now }
    {
        self.has_node(first) && self.has_node(second)
    }

    /// Whether a group has this name.
    fn has_group(&self, name: &Txt) -> bool
        ensures { result ≡ place.is_among self.now.stage.config.groups name.now }
    {
        is_among(self.stage.config().groups.inner().as_slice(), name)
    }

    /// Whether channels have all these names.
    fn has_channels(&self, names: &[Txt]) -> bool
        ensures { result ≡ cause.are_channels self.now.stage.config names.now }
    {
        are_channels(self.stage.config(), names)
    }

    /// Whether a message has this number, from 1.
    fn has_message(&self, number: u64) -> bool
        ensures { (world : World) → PlaysWorld self.now world
            → result ≡ cause.is_number_of world.messages number }
    {
        1 <= number && number <= self.messages.len() as u64
    }

    /// Whether a reply has this number, from 1.
    fn has_reply(&self, number: u64) -> bool
        ensures { (world : World) → PlaysWorld self.now world
            → result ≡ cause.is_number_of world.replies number }
    {
        1 <= number && number <= self.replies.len() as u64
    }
}

/// Whether channels have all these names.
fn are_channels(config: &Config, names: &[Txt]) -> bool
    ensures { result ≡ cause.are_channels config.now names.now }
{
    names.iter().all(|name| is_channel(config, name))
}

/// Whether a channel has this name.
fn is_channel(config: &Config, name: &Txt) -> bool
    ensures { result ≡ is_some (outcome.channel_place config.now name.now) }
{
    channel_place(config, name).is_some()
}

/// The place of the channel of a name.
pub(crate) fn channel_place(config: &Config, name: &Txt) -> Option<usize>
    ensures { result ≡ outcome.channel_place config.now name.now }
{
    let channels = config.channels.inner().as_slice();
    channels.iter().position(|channel| channel.id == *name)
}
