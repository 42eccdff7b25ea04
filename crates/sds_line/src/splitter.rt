ghost use Rattle.std.specs.Prelude.{◌≡◌, ◌≢◌, ◌+◌, ◌^◌, ◌<◌, ◌≤◌, length, OnOk, Err};
ghost use Rattle.sds_line.specs.Reading.{ended_line, with_byte};
ghost use Rattle.sds_line.specs.Splitting.{and_then, one_byte, lengthened, split, text_end, ended, next_of, without_first, next_number, reach};

use crate::{Draft, Line, LineRefusal};
use sds_base::{List, NoMemory};
use std::alloc::Global;
use std::collections::VecDeque;
use std::marker::Model;

/// How many bytes a line of a text may have.
const MOST_BYTES: usize = 1_048_576;

/// A text that is split into lines: those that are not taken yet, and the one that has not ended.
#[derive(Debug, Drop)]
pub(crate) struct Splitter {
    lines: VecDeque<Line>,
    stop: Option<LineRefusal>,
    number: u64,
    length: usize,
    feeds: u64,
    draft: Draft,
}

impl Model for Splitter {
    ghost use Rattle.std.specs.Prelude.{◌≢◌, Some};
    ghost use Rattle.sds_line.specs.declared.refusal.LineRefusal.TheVariants.{NoMemory};
    ghost use Rattle.sds_line.specs.Splitting.{Split};

    ghost Value = { Split };

    ghost view = { λ s. record { lines = s.lines.items; stop = s.stop; last = record { number = s.number; length = s.length; feeds = s.feeds; half = s.draft } } };

    ghost invariant = { λ s. s.stop ≢ Some NoMemory };
}

impl Splitter {
    ghost use Rattle.std.specs.Prelude.{None, []};
    ghost use Rattle.sds_line.specs.Splitting.{line_at};

    /// Before the first byte of a text.
    pub(crate) fn new(alloc: Global) -> Splitter
        ensures { result ≡ record { lines = []; stop = None; last = line_at 1 } }
    {
        Splitter {
            lines: VecDeque::new(alloc),
            stop: None,
            number: 1,
            length: 0,
            feeds: 0,
            draft: Draft::new(alloc),
        }
    }

    /// Splits the bytes, behind those before them.
    #[tactic(auto, using(crate::proofs::Seams::one_more, crate::proofs::Seams::none_more))]
    pub(crate) fn feed(&mut self, piece: &[u8]) -> Result<(), NoMemory>
        requires { reach self.old + length piece.now < 2 ^ 63 }
        ensures ok { OnOk result (self.new ≡ and_then self.old (λ u. split u piece.now)) }
        ensures grows { reach self.new ≤ reach self.old + length piece.now }
    {
        for byte in piece {
            self.take(*byte)?;
        }
        Ok(())
    }

    fn take(&mut self, byte: u8) -> Result<(), NoMemory>
        requires { reach self.old < 2 ^ 63 }
        ensures ok { OnOk result (self.new ≡ and_then self.old (λ u. one_byte u byte)) }
        ensures grows { reach self.new ≤ reach self.old + 1 }
    {
        if self.stop.is_some() {
            return Ok(());
        }
        if self.draft.is_end(byte) {
            return self.close();
        }
        if self.length >= MOST_BYTES {
            self.stop = Some(LineRefusal::LineTooLong);
            return Ok(());
        }
        self.lengthen(byte)
    }

    fn lengthen(&mut self, byte: u8) -> Result<(), NoMemory>
        requires going { self.old.stop ≡ None }
        requires short { self.old.last.length < 1048576 }
        requires few { reach self.old < 2 ^ 63 }
        ensures ok { OnOk result (self.new ≡ and_then self.old (λ u. lengthened u byte (with_byte u.half byte))) }
        ensures grows { reach self.new ≤ reach self.old + 1 }
    {
        match self.draft.take(byte) {
            Ok(()) => {
                self.length += 1;
                if byte == b'\n' {
                    self.feeds += 1;
                }
                Ok(())
            }
            Err(LineRefusal::NoMemory) => Err(NoMemory),
            Err(refusal) => {
                self.stop = Some(refusal);
                Ok(())
            }
        }
    }

    /// Ends the line.
    fn close(&mut self) -> Result<(), NoMemory>
        requires going { self.old.stop ≡ None }
        requires few { reach self.old < 2 ^ 63 }
        ensures ok { OnOk result (self.new ≡ and_then self.old (λ u. ended u (ended_line u.half))) }
        ensures grows { reach self.new ≤ reach self.old + 1 }
    {
        match self.draft.end() {
            Ok(fields) => {
                if !fields.is_empty() {
                    self.lines.push_back(Line {
                        number: self.number,
                        fields: List::of(fields),
                    })?;
                }
                self.number = self.number + self.feeds + 1;
                self.length = 0;
                self.feeds = 0;
                Ok(())
            }
            Err(LineRefusal::NoMemory) => Err(NoMemory),
            Err(refusal) => {
                self.stop = Some(refusal);
                Ok(())
            }
        }
    }

    /// Splits the end of the text.
    pub(crate) fn end(&mut self) -> Result<(), NoMemory>
        requires { reach self.old < 2 ^ 63 }
        ensures ok { OnOk result (self.new ≡ and_then self.old text_end) }
    {
        if self.stop.is_some() || self.length == 0 {
            return Ok(());
        }
        self.close()
    }

    /// The next line, which is taken, or why none follows.
    pub(crate) fn next(&mut self) -> Result<Option<Line>, LineRefusal>
        ensures answer { result ≡ next_of self.old }
        ensures taken { self.new ≡ without_first self.old }
        ensures memory { result ≢ Err LineRefusal.NoMemory }
    {
        if let Some(line) = self.lines.pop_front() {
            return Ok(Some(line));
        }
        match self.stop {
            Some(refusal) => Err(refusal),
            None => Ok(None),
        }
    }

    /// The number of the next line.
    pub(crate) fn number(&self) -> u64
        ensures { result ≡ next_number self.now }
    {
        match self.lines.front() {
            Some(line) => line.number,
            None => self.number,
        }
    }

    /// The number of the next line where the text ends here.
    pub(crate) fn number_at_end(&self) -> u64
        requires { reach self.now < 2 ^ 63 }
        ensures { result ≡ next_number (and_then self.now text_end) }
    {
        if self.lines.is_empty()
            && self.stop.is_none()
            && self.length > 0
            && self.draft.is_blank()
        {
            return self.number + self.feeds + 1;
        }
        self.number()
    }
}
