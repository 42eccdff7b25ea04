//! A scenario's text, fed in pieces to a reader of lines, and its lines played as they come.
ghost use Rattle.std.specs.Prelude.{◌≡◌, ◌<◌, ◌≤◌, ◌+◌, ◌^◌, [], ℕ, List, Bool, true, false};
ghost use Rattle.std.specs.Prelude.{not, length, option_map, None, IsTrue, IsSome, IfOk, IfSome, OnOk};
ghost use Rattle.std.specs.List.{All};
ghost use Rattle.sds_line.specs.declared.line.Line.{Line as TextLine};
ghost use Rattle.sds_line.specs.Splitting.{Follows, Split, is_finished, lines_in, reach};
ghost use Rattle.sds_types.specs.declared.config.Config as types;
ghost use Rattle.sds_trade.specs.rules.Sound.{IsSound};
ghost use Rattle.sds_doclaws.specs.Writable.{HasFewKeys};
ghost use Rattle.sds_nodelaws.specs.Asked.{is_noise};
ghost use Rattle.sds_screen.specs.Scenes.{first_scene};
ghost use Rattle.sds_world.specs.Reading.{Ends, Goes, IsFront, Plays, Reads, Turns, stop_of};
ghost use Rattle.sds_world.specs.Scening.{IsPlay, PlaysScene};
ghost use Rattle.sds_world.specs.Told.{IsCause};

use crate::Rehearsal;
use crate::lines::read_said;
use crate::play::Play;
use sds_base::NoMemory;
use sds_line::{Line as TextLine, LineRefusal, Lines};
use sds_types::{Config, ScenarioCause};
use std::alloc::Global;

/// How many bytes are fed at a time.
const PIECE: usize = 65_536;

/// A line, from 1, that a scenario may not have, and why.
#[derive(Clone, Copy)]
pub(crate) struct Stop {
    pub(crate) line: u64,
    pub(crate) cause: ScenarioCause,
}

/// A scenario that was played, and the first line that it may not have.
#[derive(Drop)]
pub(crate) struct Played {
    pub(crate) play: Play,
    pub(crate) bad: Option<Stop>,
}

/// Plays a scenario's text to its end or to the first line that it may not have. Of a text that is
/// too long it is given what stands before the line that holds the first byte too many.
pub(crate) fn play_text(
    alloc: Global,
    config: Config,
    noise: [u8; 16],
    text: &[u8],
    is_over: bool,
) -> Result<Played, NoMemory>
    requires few { length text.now ≤ 2 ^ 30 }
    requires config { IsSound config }
    requires keys { All (HasFewKeys config) config.transforms }
    requires noise { IsTrue (is_noise noise) }
    ensures ends { IfOk result (λ played. Ends config noise is_over
        (lines_in (not is_over) text.now) played.play played.bad) }
    ensures cause { IfOk result (λ played. IfSome played.bad (λ (b : Stop). IsCause b.cause)) }
    ensures over { IfOk result (λ played. is_over ≡ true → IsSome played.bad) }
{
    let mut play = begun(alloc, config, noise);
    let bad = play.play_whole(alloc, text, is_over)?;
    Ok(Played { play, bad })
}

/// A scenario before its first line.
fn begun(alloc: Global, config: Config, noise: [u8; 16]) -> Play
    requires config { IsSound config }
    requires keys { All (HasFewKeys config) config.transforms }
    requires noise { IsTrue (is_noise noise) }
    ensures play { IsPlay result }
    ensures scene { PlaysScene result first_scene }
    ensures config { result.rehearsal.stage.config ≡ config }
    ensures noise { result.rehearsal.stage.noise ≡ noise }
    ensures screen { result.screen.items ≡ [] }
{
    Play {
        alloc,
        rehearsal: Rehearsal::new(alloc, config, noise),
        draft: None,
        screen: Vec::new(alloc),
    }
}

/// A line that a scenario may not have, and why.
fn stopped(line: u64, cause: ScenarioCause) -> Stop
    ensures { result ≡ stop_of line cause }
{
    Stop { line, cause }
}

/// The same, if there is a cause.
fn stop_at(line: u64, cause: Option<ScenarioCause>) -> Option<Stop>
    ensures { result ≡ option_map (stop_of line) cause }
{
    match cause {
        Some(cause) => Some(stopped(line, cause)),
        None => None,
    }
}

impl Play {
    /// Plays a text to its end, or to the first line that it may not have.
    fn play_whole(
        &mut self,
        alloc: Global,
        text: &[u8],
        is_over: bool,
    ) -> Result<Option<Stop>, NoMemory>
        requires few { length text.now ≤ 2 ^ 30 }
        requires play { IsPlay self.old }
        ensures ends { IfOk result (λ bad. (config : types.Config) (noise : List ℕ)
            → Goes config noise is_over (lines_in (not is_over) text.now) [] self.old
            → Ends config noise is_over (lines_in (not is_over) text.now) self.new bad) }
        ensures cause { IfOk result (λ bad. IfSome bad (λ (b : Stop). IsCause b.cause)) }
        ensures over { IfOk result (λ bad. is_over ≡ true → IsSome bad) }
    {
        let mut lines = Lines::new(alloc);
        if let Some(bad) = self.play_pieces(alloc, &mut lines, text)? {
            return Ok(Some(bad));
        }
        if is_over {
            return Ok(Some(stopped(lines.number(), ScenarioCause::TooLong)));
        }
        lines.finish();
        if let Some(bad) = self.play_ready(alloc, &mut lines)? {
            return Ok(Some(bad));
        }
        if self.draft.is_some() {
            return Ok(Some(stopped(lines.number(), ScenarioCause::Unfinished)));
        }
        Ok(None)
    }

    /// Feeds the text to the reader, piece by piece, and plays its lines as they come. The answer is
    /// the first line that may not stand, if there is one.
    fn play_pieces(
        &mut self,
        alloc: Global,
        lines: &mut Lines,
        text: &[u8],
    ) -> Result<Option<Stop>, NoMemory>
        requires few { reach lines.old.split + length text.now < 2 ^ 63 }
        requires begins { Follows [] [] false lines.old }
        requires play { IsPlay self.old }
        ensures plays { (config : types.Config) (noise : List ℕ) (is_over : Bool) (whole : Split)
            → IsFront (lines_in false text.now) whole
            → Goes config noise is_over whole [] self.old
            → Plays config noise is_over whole text.now false result self.new lines.new }
        ensures play { OnOk result (IsPlay self.new) }
        ensures reads { IfOk result (λ bad. bad ≡ None → Reads lines.new) }
        ensures cause { IfOk result (λ bad. IfSome bad (λ (b : Stop). IsCause b.cause)) }
    {
        let mut rest = text;
        while !rest.is_empty() {
            let (piece, later) = rest.split_at(rest.len().min(PIECE));
            lines.feed(piece)?;
            if let Some(bad) = self.play_ready(alloc, lines)? {
                return Ok(Some(bad));
            }
            rest = later;
        }
        Ok(None)
    }

    /// Plays the lines that are ready. The answer is the first line that may not stand, if there is
    /// one.
    fn play_ready(&mut self, alloc: Global, lines: &mut Lines) -> Result<Option<Stop>, NoMemory>
        requires reads { Reads lines.old }
        requires play { IsPlay self.old }
        ensures plays { (config : types.Config) (noise text : List ℕ) (taken : List TextLine)
            (finished is_over : Bool) (whole : Split) → IsFront (lines_in finished text) whole
            → Follows text taken finished lines.old
            → Goes config noise is_over whole taken self.old
            → Plays config noise is_over whole text finished result self.new lines.new }
        ensures play { OnOk result (IsPlay self.new) }
        ensures phase { is_finished lines.old.phase ≡ false
            → is_finished lines.new.phase ≡ false }
        ensures reach { is_finished lines.old.phase ≡ false
            → reach lines.new.split ≡ reach lines.old.split }
        ensures reads { IfOk result (λ bad. bad ≡ None → Reads lines.new) }
        ensures cause { IfOk result (λ bad. IfSome bad (λ (b : Stop). IsCause b.cause)) }
    {
        loop {
            match lines.next() {
                Ok(None) => return Ok(None),
                Ok(Some(line)) => {
                    if let Some(bad) = self.play_text_line(alloc, line)? {
                        return Ok(Some(bad));
                    }
                }
                Err(LineRefusal::NoMemory) => return Err(NoMemory),
                Err(_) => return Ok(Some(stopped(lines.number(), ScenarioCause::BadForm))),
            }
        }
    }

    /// Plays one line. The answer is that it may not stand there, if that is so.
    fn play_text_line(&mut self, alloc: Global, line: TextLine) -> Result<Option<Stop>, NoMemory>
        requires play { IsPlay self.old }
        ensures play { OnOk result (IsPlay self.new) }
        ensures turns { IfOk result (Turns self.old self.new line) }
        ensures cause { IfOk result (λ bad. IfSome bad (λ (b : Stop). IsCause b.cause)) }
    {
        let TextLine { number, fields } = line;
        let said = read_said(alloc, fields)?;
        let cause = self.take(said)?;
        Ok(stop_at(number, cause))
    }
}
