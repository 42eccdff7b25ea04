ghost use Rattle.std.specs.Prelude.{◌≡◌, ◌≢◌, ◌+◌, ◌^◌, ◌<◌, ◌≤◌, ◌++◌, List, ℕ, Bool, true, false, OnOk, OnErr, IfErr, IsErr, Err, length};
ghost use Rattle.sds_line.specs.declared.line.Line.{Line};
ghost use Rattle.sds_line.specs.Splitting.{Follows, Answers, left, next_number, reach, is_finished, is_settled, is_spent};

use crate::{Line, LineRefusal, Splitter};
use sds_base::NoMemory;
use std::alloc::Global;
use std::marker::Model;

/// Whether the text of a reader goes on.
#[derive(Clone, Copy, Debug, PartialEq, Eq)]
pub(crate) enum Phase {
    /// It may go on.
    Open,
    /// It has ended, and its last line is not split yet.
    Due,
    /// It has ended.
    Over,
    /// Want of memory has lost a part of it.
    Spent,
}

/// The lines of a text that comes in pieces of any size.
///
/// It holds the line that has not ended and the lines that are not taken yet, and nothing else of the text: each byte
/// goes from its piece into the text of its field.
#[derive(Debug, Drop)]
pub struct Lines {
    phase: Phase,
    splitter: Splitter,
}

impl Model for Lines {
    ghost use Rattle.std.specs.Prelude.{◌≡◌, ◌<◌, ◌^◌, true};
    ghost use Rattle.sds_line.specs.Splitting.{Fed, goes_on, reach};

    ghost Value = { Fed };

    ghost view = { λ l. record { phase = l.phase; split = l.splitter } };

    ghost invariant = { λ l. goes_on l.phase ≡ true → reach l.splitter < 2 ^ 63 };
}

impl Lines {
    ghost use Rattle.std.specs.Prelude.{[]};

    /// A reader of a text before its first byte.
    pub fn new(alloc: Global) -> Lines
        ensures follows { Follows [] [] false result }
        ensures reach { reach result.split ≡ 1 }
    {
        Lines {
            phase: Phase::Open,
            splitter: Splitter::new(alloc),
        }
    }

    /// Takes the next piece of the text, of any size.
    ///
    /// It may not be called after `finish`, and at most 2^62 bytes may be fed in all. Where memory is wanting, a part
    /// of the text is lost, and every later call answers `NoMemory`.
    pub fn feed(&mut self, piece: &[u8]) -> Result<(), NoMemory>
        requires open { is_finished self.old.phase ≡ false }
        requires few { reach self.old.split + length piece.now < 2 ^ 63 }
        ensures follows { OnOk result ((text : List ℕ) (taken : List Line) → Follows text taken false self.old → Follows (text ++ piece.now) taken false self.new) }
        ensures open { is_finished self.new.phase ≡ false }
        ensures reach { reach self.new.split ≤ reach self.old.split + length piece.now }
        ensures spent { OnErr result (is_spent self.new.phase ≡ true) }
        ensures stays { is_spent self.old.phase ≡ true → IsErr result }
    {
        if let Phase::Spent = self.phase {
            return Err(NoMemory);
        }
        let answer = self.splitter.feed(piece);
        if answer.is_err() {
            self.phase = Phase::Spent;
        }
        answer
    }

    /// Says that the text ends here. It takes no memory.
    pub fn finish(&mut self)
        ensures follows { (text : List ℕ) (taken : List Line) (finished : Bool) → Follows text taken finished self.old → Follows text taken true self.new }
        ensures spent { is_spent self.old.phase ≡ true → is_spent self.new.phase ≡ true }
    {
        if let Phase::Open = self.phase {
            self.phase = Phase::Due;
        }
    }

    /// The next line that has fields, which is taken.
    ///
    /// None comes exactly where the bytes that were fed hold no further whole line but blank ones and comments, and
    /// none of them is refused. A refusal comes behind the lines before it, as soon as its byte was fed, and every
    /// later call repeats it: `BareQuote`, `BadEscape` and `NotUtf8` at the first byte from which on no way to go on
    /// is a line, `LineTooLong` at the byte behind 1,048,576 of one line, its closing line feed not counted, whatever
    /// else that byte is. A byte that breaks a character off is `NotUtf8`; any other byte is judged by its place, so
    /// that behind a closing quote or a backslash a byte that begins no character is `BareQuote` or `BadEscape`.
    /// After `finish` the last bytes are a line without a line feed; an end inside a character is `NotUtf8`, and one
    /// inside quotes `OpenQuote`. `NoMemory` comes of want of memory alone, and then every later call answers it. The
    /// form of the lines is that of [`read_line`](crate::read_line), and is symds' own.
    pub fn next(&mut self) -> Result<Option<Line>, LineRefusal>
        ensures answers { (text : List ℕ) (taken : List Line) (finished : Bool) → Follows text taken finished self.old → Answers text taken finished result self.new }
        ensures spent { is_spent self.old.phase ≡ true → (result ≡ Err LineRefusal.NoMemory) × (is_spent self.new.phase ≡ true) }
        ensures phase { is_finished self.old.phase ≡ false → is_finished self.new.phase ≡ false }
        ensures reach { is_finished self.old.phase ≡ false → reach self.new.split ≡ reach self.old.split }
    {
        self.settle()?;
        self.splitter.next()
    }

    /// Splits the end of the text where that is due.
    fn settle(&mut self) -> Result<(), LineRefusal>
        ensures ok { OnOk result ((left self.new ≡ left self.old) × (is_settled self.new.phase ≡ true) × (is_finished self.new.phase ≡ is_finished self.old.phase)) }
        ensures err { IfErr result (λ refusal. (refusal ≡ LineRefusal.NoMemory) × (is_spent self.new.phase ≡ true)) }
        ensures open { is_finished self.old.phase ≡ false → self.new ≡ self.old }
        ensures spent { is_spent self.old.phase ≡ true → result ≡ Err LineRefusal.NoMemory }
    {
        match self.phase {
            Phase::Spent => Err(LineRefusal::NoMemory),
            Phase::Due => self.end(),
            Phase::Open | Phase::Over => Ok(()),
        }
    }

    /// Splits the end of the text.
    fn end(&mut self) -> Result<(), LineRefusal>
        requires { self.old.phase ≡ Phase.Due }
        ensures ok { OnOk result ((left self.new ≡ left self.old) × (self.new.phase ≡ Phase.Over)) }
        ensures err { IfErr result (λ refusal. (refusal ≡ LineRefusal.NoMemory) × (self.new.phase ≡ Phase.Spent)) }
    {
        if self.splitter.end().is_err() {
            self.phase = Phase::Spent;
            return Err(LineRefusal::NoMemory);
        }
        self.phase = Phase::Over;
        Ok(())
    }

    /// The number of the line that the next `next` gives or refuses, and of the line that has not ended where it
    /// answers none: 1 more than the line feeds before it, those inside quotes counted. After a refusal it stays that
    /// line's.
    pub fn number(&self) -> u64
        ensures { result ≡ next_number (left self.now) }
    {
        match self.phase {
            Phase::Due => self.splitter.number_at_end(),
            _ => self.splitter.number(),
        }
    }
}
