//! What a person sees of the nodes of a rehearsal.
ghost use Rattle.std.specs.Prelude.{◌≡◌, ◌++◌, true, OnOk};
ghost use Rattle.std.specs.Str.{chars};
ghost use Rattle.sds_outside.specs.MemKeeping.{IsKeptOpen, kept_told};
ghost use Rattle.sds_types.specs.declared.config.Config as types;
ghost use Rattle.sds_types.specs.declared.world_event.WorldEvent.TheVariants as event;
ghost use Rattle.sds_history.specs.world.Worlds.{Node as Stood, state_in};
ghost use Rattle.sds_screen.specs.Listed.{batches_text};
ghost use Rattle.sds_screen.specs.Shown.{tables_text};
ghost use Rattle.sds_node.specs.Meaning.{IsNode};
ghost use Rattle.sds_stage.specs.Standing.{Stands};

use crate::Stage;
use crate::finding::place_in;
use sds_base::NoMemory;
use sds_node::Node;
use sds_outside::MemKeeper;

impl Stage {
    ghost use Rattle.sds_stage.specs.Playing.{IsStage, Plays};

    /// The tables of a node are shown.
    pub fn show(&mut self, id: &str, out: &mut Vec<u8>) -> Result<(), NoMemory>
        requires stage { IsStage self.old }
        ensures stage { IsStage self.new }
        ensures config { self.new.config ≡ self.old.config }
        ensures noise { self.new.noise ≡ self.old.noise }
        ensures plays { OnOk result (Plays self.old self.new out.old.items out.new.items
            (event.Show (chars id.now))) }
    {
        let Some(place) = place_in(&self.nodes, id) else {
            return Ok(());
        };
        show_at(&mut self.nodes[place], out)
    }

    /// The batches of a node are shown.
    pub fn batches(&mut self, id: &str, out: &mut Vec<u8>) -> Result<(), NoMemory>
        requires stage { IsStage self.old }
        ensures stage { IsStage self.new }
        ensures config { self.new.config ≡ self.old.config }
        ensures noise { self.new.noise ≡ self.old.noise }
        ensures plays { OnOk result (Plays self.old self.new out.old.items out.new.items
            (event.Batches (chars id.now))) }
    {
        let Some(place) = place_in(&self.nodes, id) else {
            return Ok(());
        };
        batches_at(&mut self.nodes[place], out)
    }
}

/// The tables of a node, which is settled first.
fn show_at(node: &mut Node<MemKeeper>, out: &mut Vec<u8>) -> Result<(), NoMemory>
    requires { IsNode IsKeptOpen kept_told node.old }
    ensures node { IsNode IsKeptOpen kept_told node.new }
    ensures shows { OnOk result ((config : types.Config) (stood : Stood)
        → Stands config node.old stood → Stands config node.new stood
        × (out.new.items ≡ out.old.items ++ tables_text config (state_in config stood))) }
{
    settle_at(node)?;
    node.put_tables(out)
}

/// The batches of a node, which is settled first.
fn batches_at(node: &mut Node<MemKeeper>, out: &mut Vec<u8>) -> Result<(), NoMemory>
    requires { IsNode IsKeptOpen kept_told node.old }
    ensures node { IsNode IsKeptOpen kept_told node.new }
    ensures shows { OnOk result ((config : types.Config) (stood : Stood)
        → Stands config node.old stood → Stands config node.new stood
        × (out.new.items ≡ out.old.items ++ batches_text config (state_in config stood))) }
{
    settle_at(node)?;
    node.put_batches(out)
}

/// A node that may not be sure reads its records again. A keeper in memory that tells of its faults
/// fails no reading, so only memory may be wanting.
pub(crate) fn settle_at(node: &mut Node<MemKeeper>) -> Result<(), NoMemory>
    requires { IsNode IsKeptOpen kept_told node.old }
    ensures node { IsNode IsKeptOpen kept_told node.new }
    ensures sure { OnOk result (node.new.sure ≡ true) }
    ensures config { node.new.config ≡ node.old.config }
    ensures stands { OnOk result ((config : types.Config) (stood : Stood)
        → Stands config node.old stood → Stands config node.new stood) }
{
    let Ok(()) = node.settle() else {
        return Err(NoMemory);
    };
    Ok(())
}
