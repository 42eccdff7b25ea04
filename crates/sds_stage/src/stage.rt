//! The nodes of a rehearsal, and what each event does to them and prints.
ghost use Rattle.std.specs.Prelude.{◌≡◌, [], OnOk, IsTrue, ◌&&◌};
ghost use Rattle.std.specs.Str.{chars};
ghost use Rattle.sds_value.specs.Names.{is_name_text};
ghost use Rattle.sds_trade.specs.rules.Sound.{IsSound};
ghost use Rattle.sds_nodelaws.specs.Asked.{are_spelt, is_noise};
ghost use Rattle.sds_types.specs.declared.world_event.WorldEvent.TheVariants as event;
ghost use Rattle.sds_history.specs.world.Worlds.{empty_world};

use crate::calls::{open_at, route_at, write_at};
use crate::finding::place_in;
use sds_base::NoMemory;
use sds_node::Node;
use sds_outside::MemKeeper;
use sds_told::{put_opening, put_routing, put_writing};
use sds_types::{Config, TxRow};
use std::alloc::Global;

/// The nodes of a rehearsal, each over its own keeper in memory, under one configuration.
#[derive(Drop)]
pub struct Stage {
    pub(crate) alloc: Global,
    pub(crate) config: Config,
    pub(crate) noise: [u8; 16],
    pub(crate) nodes: Vec<Node<MemKeeper>>,
}

impl Stage {
    ghost use Rattle.sds_stage.specs.Playing.{IsStage, Plays, PlaysWorld};

    /// A stage without nodes. Each opening of a registration there gives the token of this noise.
    pub fn new(alloc: Global, config: Config, noise: [u8; 16]) -> Stage
        requires { IsSound config }
        ensures stage { IsStage result }
        ensures plays { PlaysWorld result empty_world }
        ensures config { result.config ≡ config }
        ensures noise { result.noise ≡ noise }
    {
        Stage {
            alloc,
            config,
            noise,
            nodes: Vec::new(alloc),
        }
    }

    /// A node opens the registration of a group and an external id.
    pub fn open(
        &mut self,
        id: &str,
        group: &str,
        external: &str,
        out: &mut Vec<u8>,
    ) -> Result<(), NoMemory>
        requires stage { IsStage self.old }
        requires asked { IsTrue (is_name_text (chars group.now)
            && (is_name_text (chars external.now) && is_noise self.old.noise)) }
        ensures stage { IsStage self.new }
        ensures config { self.new.config ≡ self.old.config }
        ensures noise { self.new.noise ≡ self.old.noise }
        ensures plays { OnOk result (Plays self.old self.new out.old.items out.new.items
            (event.Open (chars id.now) (chars group.now) (chars external.now))) }
    {
        let Some(place) = place_in(&self.nodes, id) else {
            return Ok(());
        };
        let answer = open_at(&mut self.nodes[place], group, external, self.noise)?;
        put_opening(id, group, external, &answer, out)
    }

    /// A writer's numbered write is made at a node.
    pub fn write(
        &mut self,
        id: &str,
        writer: &str,
        number: u64,
        rows: &[TxRow],
        out: &mut Vec<u8>,
    ) -> Result<(), NoMemory>
        requires stage { IsStage self.old }
        requires asked { IsTrue (is_name_text (chars writer.now) && are_spelt rows.now) }
        ensures stage { IsStage self.new }
        ensures config { self.new.config ≡ self.old.config }
        ensures noise { self.new.noise ≡ self.old.noise }
        ensures plays { OnOk result (Plays self.old self.new out.old.items out.new.items
            (event.Write (chars id.now) (chars writer.now) number rows.now)) }
    {
        let Some(place) = place_in(&self.nodes, id) else {
            return Ok(());
        };
        let answer = write_at(&mut self.nodes[place], writer, number, rows)?;
        put_writing(id, writer, number, &answer, out)
    }

    /// A routing run is made at a node.
    pub fn route(&mut self, id: &str, out: &mut Vec<u8>) -> Result<(), NoMemory>
        requires stage { IsStage self.old }
        ensures stage { IsStage self.new }
        ensures config { self.new.config ≡ self.old.config }
        ensures noise { self.new.noise ≡ self.old.noise }
        ensures plays { OnOk result (Plays self.old self.new out.old.items out.new.items
            (event.Route (chars id.now))) }
    {
        let Some(place) = place_in(&self.nodes, id) else {
            return Ok(());
        };
        let answer = route_at(&mut self.nodes[place])?;
        put_routing(id, &answer, out)
    }
}
