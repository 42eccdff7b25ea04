// A scenario's text, fed in pieces to a reader of lines, and its lines played as they come.
ghost use Rattle.std.specs.Prelude.{◌≡◌, ◌<◌, ◌≤◌, ◌+◌, ◌^◌, ◌++◌, ◌∷◌, [], ℕ, List, Bool, true, false, not, ◌&&◌, length, map, Some, None, IsTrue, IsSome, IfOk, IfSome, OnOk};
ghost use Rattle.sds_line.specs.declared.line.Line.{Line as TextLine};
ghost use Rattle.sds_line.specs.Splitting.{Split, Follows, is_finished, lines_in, reach};
ghost use Rattle.sds_first_spec.specs.One.{one};
ghost use Rattle.sds_first_spec.specs.Screen.{screen_of};
ghost use Rattle.sds_first_spec.specs.World.{empty_world};
ghost use Rattle.sds_first_world.specs.Games.{Reads, IsFront, Goes, Ends, Plays};
ghost use Rattle.sds_first_world.specs.Looking.{behind, completed, has_room, start};
ghost use Rattle.sds_first_world.specs.Played.{IsCause, events_from, may_stand, refusal_from, said};
ghost use Rattle.sds_first_world.specs.Shapes.{Behind, printed_line};
ghost use Rattle.sds_first_world.specs.Sound.{IsSoundEvent, IsSoundLine, IsSoundPlace};

use crate::stage::Stage;
use crate::{BadLine, Line, Place, fits, read_fields, take_line};
use sds_base::NoMemory;
use sds_first_spec::WorldEvent;
use sds_line::{Line as TextLine, LineRefusal, Lines};
use std::alloc::Global;

/// How many bytes are fed at a time.
const PIECE: usize = 65_536;

/// The cause of a line that is of no line's form.
const BAD_FORM: u8 = 1;

/// The cause of an end inside a write.
const UNFINISHED: u8 = 4;

/// The cause of an input that is too long, at the line of the first byte too many.
const TOO_LONG: u8 = 5;

/// The cause of a line that isn't built.
const NOT_BUILT: u8 = 6;

/// What a text prints, and the first line that it may not have.
#[derive(Drop)]
pub(crate) struct Played {
    pub(crate) screen: Vec<u8>,
    pub(crate) bad: Option<BadLine>,
}

/// A scenario that is played: its nodes, where its next line stands, and what it has printed.
#[derive(Drop)]
pub(crate) struct Game {
    /// Whether its lines are built.
    is_built: bool,
    stage: Stage,
    place: Place,
    screen: Vec<u8>,
}

/// Plays a scenario's text, or, where it is too long, what stands before the line that holds the first byte too many. No line
/// but a blank one or a comment may stand where the lines aren't built.
pub(crate) fn play_text(
    alloc: Global,
    is_built: bool,
    text: &[u8],
    is_over: bool,
) -> Result<Played, NoMemory>
    requires { length text.now ≤ 2 ^ 30 }
    ensures bad { IfOk result (λ played. played.bad ≡ refusal_from is_built is_over (lines_in (not is_over) text.now) [] (lines_in (not is_over) text.now).lines) }
    ensures screen { IfOk result (λ played. played.screen.items ≡ screen_of one empty_world (events_from is_built [] (map said (lines_in (not is_over) text.now).lines))) }
    ensures cause { IfOk result (λ played. IfSome played.bad (λ (b : BadLine). IsCause b.cause)) }
    ensures over { IfOk result (λ played. is_over ≡ true → IsSome played.bad) }
{
    let mut game = Game::new(alloc, is_built);
    let bad = game.play_whole(alloc, text, is_over)?;
    Ok(game.ended(bad))
}

/// A line that a scenario may not have, and why.
fn stopped(line: u64, cause: u8) -> BadLine
    ensures { result ≡ record { line = line; cause = cause } }
{
    BadLine { line, cause }
}

/// What a line says.
fn read_said(alloc: Global, line: &TextLine) -> Result<Line, NoMemory>
    ensures said { IfOk result (λ it. it ≡ said line.now) }
    ensures sound { IfOk result IsSoundLine }
{
    read_fields(alloc, line.fields.inner().as_slice())
}

/// Whether a line may stand at a place of the scenario that a stage plays.
fn may_stand(stage: &Stage, place: &Place, line: &Line) -> bool
    ensures fits { (older : List Line) → Behind older place.now stage.now → result ≡ may_stand older line.now }
    ensures room { IsTrue result → IsTrue (has_room place.now line.now) }
{
    let last = stage.last_said(line);
    let settled = stage.is_settled();
    fits(place, last, settled, line)
}

/// Takes a line that fits where all that stood before is sound.
fn take_sound(alloc: Global, place: &mut Place, line: Line) -> Result<Option<WorldEvent>, NoMemory>
    requires room { IsTrue (has_room place.old line) }
    requires place { IsSoundPlace place.old }
    requires line { IsSoundLine line }
    ensures place { OnOk result (IsSoundPlace place.new) }
    ensures event { IfOk result (λ event. IfSome event IsSoundEvent) }
    ensures happens { IfOk result (λ event. event ≡ completed place.old line) }
    ensures behind { OnOk result (place.new ≡ behind place.old line) }
{
    let event = take_line(alloc, place, line)?;
    Ok(event)
}

impl Game {
    /// A scenario before its first line.
    fn new(alloc: Global, is_built: bool) -> Game
        ensures built { result.is_built ≡ is_built }
        ensures nodes { result.stage.nodes.items ≡ [] }
        ensures peers { result.stage.peers.items ≡ [] }
        ensures messages { result.stage.messages ≡ 0 }
        ensures replies { result.stage.replies ≡ 0 }
        ensures place { result.place ≡ start }
        ensures screen { result.screen.items ≡ [] }
    {
        Game {
            is_built,
            stage: Stage::new(alloc),
            place: Place::start(),
            screen: Vec::new(alloc),
        }
    }

    /// What was played, where it ended so.
    fn ended(self, bad: Option<BadLine>) -> Played
        ensures screen { result.screen.items ≡ self.screen.items }
        ensures bad { result.bad ≡ bad }
    {
        let Game { screen, .. } = self;
        Played { screen, bad }
    }

    /// Plays a text to its end, or to the first line that it may not have.
    fn play_whole(
        &mut self,
        alloc: Global,
        text: &[u8],
        is_over: bool,
    ) -> Result<Option<BadLine>, NoMemory>
        requires few { length text.now ≤ 2 ^ 30 }
        requires place { IsSoundPlace self.old.place }
        ensures ends { IfOk result (λ bad. Goes is_over (lines_in (not is_over) text.now) [] self.old → Ends is_over (lines_in (not is_over) text.now) self.new bad) }
        ensures built { self.new.is_built ≡ self.old.is_built }
        ensures cause { IfOk result (λ bad. IfSome bad (λ (b : BadLine). IsCause b.cause)) }
        ensures over { IfOk result (λ bad. is_over ≡ true → IsSome bad) }
    {
        let mut lines = Lines::new(alloc);
        if let Some(bad) = self.play_pieces(alloc, &mut lines, text)? {
            return Ok(Some(bad));
        }
        if is_over {
            return Ok(Some(stopped(lines.number(), TOO_LONG)));
        }
        lines.finish();
        if let Some(bad) = self.play_lines(alloc, &mut lines)? {
            return Ok(Some(bad));
        }
        if self.place.draft.is_some() {
            return Ok(Some(stopped(lines.number(), UNFINISHED)));
        }
        Ok(None)
    }

    /// Feeds the text to the reader, piece by piece, and plays its lines as they come. The answer is the first line that may
    /// not stand, if there is one.
    fn play_pieces(
        &mut self,
        alloc: Global,
        lines: &mut Lines,
        text: &[u8],
    ) -> Result<Option<BadLine>, NoMemory>
        requires few { reach lines.old.split + length text.now < 2 ^ 63 }
        requires begins { Follows [] [] false lines.old }
        requires place { IsSoundPlace self.old.place }
        ensures plays { (is_over : Bool) (whole : Split) → IsFront (lines_in false text.now) whole → length whole.lines < 2 ^ 62
            → Goes is_over whole [] self.old → Plays is_over whole text.now false result self.new lines.new }
        ensures place { OnOk result (IsSoundPlace self.new.place) }
        ensures built { self.new.is_built ≡ self.old.is_built }
        ensures reads { IfOk result (λ bad. bad ≡ None → Reads lines.new) }
        ensures cause { IfOk result (λ bad. IfSome bad (λ (b : BadLine). IsCause b.cause)) }
    {
        let mut rest = text;
        while !rest.is_empty() {
            let (piece, later) = rest.split_at(rest.len().min(PIECE));
            lines.feed(piece)?;
            if let Some(bad) = self.play_lines(alloc, lines)? {
                return Ok(Some(bad));
            }
            rest = later;
        }
        Ok(None)
    }

    /// Plays the lines that are ready. The answer is the first line that may not stand, if there is one.
    fn play_lines(&mut self, alloc: Global, lines: &mut Lines) -> Result<Option<BadLine>, NoMemory>
        requires reads { Reads lines.old }
        requires place { IsSoundPlace self.old.place }
        ensures plays { (text : List ℕ) (taken : List TextLine) (finished is_over : Bool) (whole : Split) → IsFront (lines_in finished text) whole → length whole.lines < 2 ^ 62
            → Follows text taken finished lines.old → Goes is_over whole taken self.old → Plays is_over whole text finished result self.new lines.new }
        ensures place { OnOk result (IsSoundPlace self.new.place) }
        ensures built { self.new.is_built ≡ self.old.is_built }
        ensures phase { is_finished lines.old.phase ≡ false → is_finished lines.new.phase ≡ false }
        ensures reach { is_finished lines.old.phase ≡ false → reach lines.new.split ≡ reach lines.old.split }
        ensures reads { IfOk result (λ bad. bad ≡ None → Reads lines.new) }
        ensures cause { IfOk result (λ bad. IfSome bad (λ (b : BadLine). IsCause b.cause)) }
    {
        loop {
            match lines.next() {
                Ok(None) => return Ok(None),
                Ok(Some(line)) => {
                    if !self.play_line(alloc, &line)? {
                        return Ok(Some(stopped(line.number, NOT_BUILT)));
                    }
                }
                Err(LineRefusal::NoMemory) => return Err(NoMemory),
                Err(_) => return Ok(Some(stopped(lines.number(), BAD_FORM))),
            }
        }
    }

    /// Plays one line, and says whether it may stand there.
    fn play_line(&mut self, alloc: Global, line: &TextLine) -> Result<bool, NoMemory>
        requires { IsSoundPlace self.old.place }
        ensures place { OnOk result (IsSoundPlace self.new.place) }
        ensures built { self.new.is_built ≡ self.old.is_built }
        ensures stands { IfOk result (λ stands. (older : List Line) → Behind older self.old.place self.old.stage → stands ≡ self.old.is_built && may_stand older (said line.now)) }
        ensures stays { IfOk result (λ stands. stands ≡ false → self.new.screen.items ≡ self.old.screen.items) }
        ensures plays { IfOk result (λ stands. stands ≡ true → (older : List Line) → length older < 2 ^ 62 → Behind older self.old.place self.old.stage
            → Behind (said line.now ∷ older) self.new.place self.new.stage × (self.new.screen.items ≡ self.old.screen.items ++ printed_line older (said line.now))) }
    {
        let line = read_said(alloc, line)?;
        if !self.is_built || !may_stand(&self.stage, &self.place, &line) {
            return Ok(false);
        }
        if let Some(event) = take_sound(alloc, &mut self.place, line)? {
            self.stage.happen(event, &mut self.screen)?;
        }
        Ok(true)
    }
}
