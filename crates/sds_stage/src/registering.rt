//! Nodes that register at another.
ghost use Rattle.std.specs.Prelude.{◌≡◌, ◌++◌, ◌&&◌, IsTrue, OnOk};
ghost use Rattle.std.specs.Str.{chars};
ghost use Rattle.sds_types.specs.declared.world_event.WorldEvent.TheVariants as event;
ghost use Rattle.sds_history.specs.history.SoundParts.{is_token};
ghost use Rattle.sds_history.specs.world.Registering.{join_in};
ghost use Rattle.sds_history.specs.world.Worlds.{Node as Stood, World, me_of, node_at};
ghost use Rattle.sds_nodelaws.specs.Asked.{is_named_peer};

use crate::Stage;
use crate::calls::{join_at, register_at};
use crate::finding::place_in;
use sds_base::{NoMemory, Twin};
use sds_told::put_registering;
use sds_value::Peer;

impl Stage {
    ghost use Rattle.sds_stage.specs.Playing.{HasGone, IsStage, Plays, PlaysWorld};

    /// A node asks another to register it, and joins it with the token that it is given.
    pub fn register(&mut self, asks: &str, at: &str, out: &mut Vec<u8>) -> Result<(), NoMemory>
        requires stage { IsStage self.old }
        ensures stage { IsStage self.new }
        ensures config { self.new.config ≡ self.old.config }
        ensures noise { self.new.noise ≡ self.old.noise }
        ensures plays { OnOk result (Plays self.old self.new out.old.items out.new.items
            (event.Register (chars asks.now) (chars at.now))) }
    {
        let Some(child) = place_in(&self.nodes, asks) else {
            return Ok(());
        };
        let Some(place) = place_in(&self.nodes, at) else {
            return Ok(());
        };
        let asking = self.nodes[child].me().twin(self.alloc)?;
        let answer = register_at(&mut self.nodes[place], &asking)?;
        let other = self.nodes[place].me().twin(self.alloc)?;
        match answer {
            Ok(token) => self.join(asks, at, &other, token.as_str(), out),
            Err(refusal) => put_registering(asks, at, &Err(refusal), out),
        }
    }

    /// The node of an id joins another with the token that it was given.
    fn join(
        &mut self,
        asks: &str,
        at: &str,
        other: &Peer,
        token: &str,
        out: &mut Vec<u8>,
    ) -> Result<(), NoMemory>
        requires stage { IsStage self.old }
        requires asked { IsTrue (is_named_peer other.now && is_token (chars token.now)) }
        ensures stage { IsStage self.new }
        ensures config { self.new.config ≡ self.old.config }
        ensures noise { self.new.noise ≡ self.old.noise }
        ensures goes { OnOk result ((world : World) (node : Stood) → PlaysWorld self.old world
            → me_of node ≡ other.now → (me_of node).id ≡ chars at.now
            → HasGone self.old self.new out.old.items out.new.items (join_in self.old.config world
            (chars asks.now) node (chars token.now) (node_at world (chars asks.now)))) }
    {
        let Some(child) = place_in(&self.nodes, asks) else {
            return Ok(());
        };
        let answer = join_at(&mut self.nodes[child], other, token)?;
        put_registering(asks, at, &answer, out)
    }
}
