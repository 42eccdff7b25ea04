//! The lines of a scenario, played one after another.
ghost use Rattle.std.specs.Prelude.{◌≡◌, ◌++◌, None, Some, IfOk, IfSome, OnOk};
ghost use Rattle.std.specs.Prelude.{is_some, option_map, true};
ghost use Rattle.sds_types.specs.declared.scenario.ScenarioCause.{ScenarioCause};
ghost use Rattle.sds_history.specs.world.Worlds.{World};
ghost use Rattle.sds_screen.specs.Causes as causes;
ghost use Rattle.sds_screen.specs.Causes.{cause_of};
ghost use Rattle.sds_screen.specs.Scenes.{Scene, draft_after, event_at};
ghost use Rattle.sds_screen.specs.Screen.{happened_if, scene_by, text_by, text_of_happened};
ghost use Rattle.sds_worldlaws.specs.Stepping.{IsNew};

use crate::Rehearsal;
use crate::stepping::{Step, step_at};
use sds_base::{List, NoMemory, Txt};
use sds_types::{ScenarioCause, ScenarioLine, TxRow, WorldEvent};
use std::alloc::Global;

/// A write that has begun, with its rows so far.
#[derive(Drop)]
pub(crate) struct Draft {
    pub(crate) node: Txt,
    pub(crate) writer: Txt,
    pub(crate) number: u64,
    pub(crate) rows: List<TxRow>,
}

/// A scenario that is played: its rehearsal, the write that is being read, and what was printed.
#[derive(Drop)]
pub(crate) struct Play {
    pub(crate) alloc: Global,
    pub(crate) rehearsal: Rehearsal,
    pub(crate) draft: Option<Draft>,
    pub(crate) screen: Vec<u8>,
}

impl Play {
    ghost use Rattle.sds_world.specs.Playing.{IsAskedEvent, PlaysWorld};
    ghost use Rattle.sds_world.specs.Scening.{IsPlay, IsSaidLine, MayStand, PlaysScene, StaysPlay};
    ghost use Rattle.sds_world.specs.Scening.{draft_of};

    /// Takes the next line, by what it says: plays it, or tells why it may not stand there, and
    /// then prints nothing. A line that says nothing is malformed.
    pub(crate) fn take(
        &mut self,
        line: Option<ScenarioLine>,
    ) -> Result<Option<ScenarioCause>, NoMemory>
        requires play { IsPlay self.old }
        requires said { IfSome line IsSaidLine }
        ensures play { OnOk result (IsPlay self.new) }
        ensures still { OnOk result (StaysPlay self.old self.new) }
        ensures cause { IfOk result (λ cause. (scene : Scene) → PlaysScene self.old scene
            → cause ≡ cause_of self.old.rehearsal.stage.config scene line) }
        ensures stays { IfOk result (λ cause. is_some cause ≡ true → self.new ≡ self.old) }
        ensures scene { IfOk result (λ cause. cause ≡ None
            → (scene : Scene) → PlaysScene self.old scene
            → PlaysScene self.new (scene_by self.old.rehearsal.stage.config
            self.old.rehearsal.stage.noise scene line)) }
        ensures prints { IfOk result (λ cause. cause ≡ None
            → (scene : Scene) → PlaysScene self.old scene
            → self.new.screen.items ≡ self.old.screen.items
            ++ text_by self.old.rehearsal.stage.config self.old.rehearsal.stage.noise scene line) }
    {
        let Some(line) = line else {
            return Ok(Some(ScenarioCause::BadForm));
        };
        if let Some(cause) = self.cause(&line) {
            return Ok(Some(cause));
        }
        self.play_line(line)?;
        Ok(None)
    }

    /// Why a line may not stand next, if there is a cause.
    fn cause(&self, line: &ScenarioLine) -> Option<ScenarioCause>
        ensures { (scene : Scene) → PlaysScene self.now scene
            → result ≡ cause_of self.now.rehearsal.stage.config scene (Some line.now) }
    {
        if !self.is_in_place(line) {
            return Some(ScenarioCause::BadForm);
        }
        if !self.rehearsal.names_stand(line) {
            return Some(ScenarioCause::UnknownName);
        }
        if self.rehearsal.is_twice(line) {
            return Some(ScenarioCause::Twice);
        }
        None
    }

    /// Whether a line stands inside a write where it is a row or the end, else outside.
    fn is_in_place(&self, line: &ScenarioLine) -> bool
        ensures { result ≡ causes.is_in_place (option_map draft_of self.now.draft) line.now }
    {
        match self.draft {
            None => !is_of_write(line),
            Some(_) => is_of_write(line),
        }
    }

    /// Plays a line that may stand next.
    fn play_line(&mut self, line: ScenarioLine) -> Result<(), NoMemory>
        requires play { IsPlay self.old }
        requires said { IsSaidLine line }
        requires stands { MayStand self.old line }
        ensures play { OnOk result (IsPlay self.new) }
        ensures still { OnOk result (StaysPlay self.old self.new) }
        ensures scene { OnOk result ((scene : Scene) → PlaysScene self.old scene
            → PlaysScene self.new (scene_by self.old.rehearsal.stage.config
            self.old.rehearsal.stage.noise scene (Some line))) }
        ensures prints { OnOk result ((scene : Scene) → PlaysScene self.old scene
            → self.new.screen.items ≡ self.old.screen.items
            ++ text_by self.old.rehearsal.stage.config self.old.rehearsal.stage.noise scene
            (Some line)) }
    {
        let event = self.step(line)?;
        self.happen(event)
    }

    /// Goes on with what is read of a write, and gives what happens at the line, if anything does.
    fn step(&mut self, line: ScenarioLine) -> Result<Option<WorldEvent>, NoMemory>
        ensures event { IfOk result (λ event. event ≡ event_at self.old.rehearsal.stage.config
            (option_map draft_of self.old.draft) line) }
        ensures draft { OnOk result (option_map draft_of self.new.draft
            ≡ draft_after (option_map draft_of self.old.draft) line) }
        ensures rehearsal { OnOk result (self.new.rehearsal ≡ self.old.rehearsal) }
        ensures screen { OnOk result (self.new.screen.items ≡ self.old.screen.items) }
    {
        let draft = self.draft.take();
        let config = self.rehearsal.stage.config();
        let Step { draft, event } = step_at(self.alloc, config, draft, line)?;
        self.draft = draft;
        Ok(event)
    }

    /// Lets happen what a line makes happen, if anything.
    fn happen(&mut self, event: Option<WorldEvent>) -> Result<(), NoMemory>
        requires play { IsPlay self.old }
        requires asked { IfSome event IsAskedEvent }
        requires new { (world : World) → PlaysWorld self.old.rehearsal world
            → IfSome event (IsNew world) }
        ensures play { OnOk result (IsPlay self.new) }
        ensures still { OnOk result (StaysPlay self.old self.new) }
        ensures draft { OnOk result (self.new.draft ≡ self.old.draft) }
        ensures world { OnOk result ((world : World) → PlaysWorld self.old.rehearsal world
            → PlaysWorld self.new.rehearsal (happened_if self.old.rehearsal.stage.config
            self.old.rehearsal.stage.noise world event).world) }
        ensures prints { OnOk result ((world : World) → PlaysWorld self.old.rehearsal world
            → self.new.screen.items ≡ self.old.screen.items
            ++ text_of_happened self.old.rehearsal.stage.config
            (happened_if self.old.rehearsal.stage.config
            self.old.rehearsal.stage.noise world event)) }
    {
        match event {
            None => Ok(()),
            Some(event) => self.rehearsal.happen(&event, &mut self.screen),
        }
    }
}

/// Whether a line is a row of a write, or its end.
fn is_of_write(line: &ScenarioLine) -> bool
    ensures { result ≡ causes.is_of_write line.now }
{
    matches!(line, ScenarioLine::Row(_) | ScenarioLine::End)
}
