//! A document that comes in pieces of any size, and its batches as they become whole.
ghost use Rattle.std.specs.Prelude.{◌≡◌, ◌+◌, ◌^◌, ◌<◌, ◌≤◌, ◌++◌, ℕ, List, Bool, true, false, Some, None, IfOk, OnOk, OnErr, IsErr, MatchOption, length};
ghost use Rattle.sds_types.specs.declared.document.BatchDoc.{BatchDoc};
ghost use Rattle.sds_line.specs.Splitting.{is_finished, left, next_number, reach};
ghost use Rattle.sds_batchtext.specs.declared.doc_line.DocLine.{DocLine};
ghost use Rattle.sds_batchtext.specs.Documents.{end_of, is_unfinished, last_end, node_in};

use crate::reading::read_lines;
use crate::{NodeLine, Position};
use sds_base::{NoMemory, Txt};
use sds_line::Lines;
use sds_types::{BatchDoc, DocumentCause, End};
use std::alloc::Global;
use std::collections::VecDeque;
use std::marker::Model;

/// A document that comes in pieces of any size.
///
/// It keeps the batch that is open and the batches that weren't taken, the line that has not ended,
/// and what holds of the lines before: the node, the channel, the keys and columns of each table.
/// It keeps no line that was read.
#[derive(Debug, Drop)]
pub struct Reader {
    lines: Lines,
    position: Position,
    ready: VecDeque<BatchDoc>,
    ending: Option<End>,
    is_spent: bool,
}

impl Model for Reader {
    ghost use Rattle.sds_batchtext.specs.Reading.{ReaderState, CanRead};

    ghost Value = { ReaderState };

    ghost view = { λ r. record {
      lines = r.lines;
      position = r.position;
      ready = r.ready.items;
      ending = r.ending;
      is_spent = r.is_spent;
    } };

    ghost invariant = { λ r. ∥ CanRead r.is_spent r.ending r.lines ∥₁ };
}

impl Reader {
    ghost use Rattle.std.specs.Prelude.{[]};
    ghost use Rattle.sds_batchtext.specs.Reading.{HasRead, HasReadLines, IsReading, Takes};
    ghost use Rattle.sds_batchtext.specs.Positions.{IsPositionAfter};

    /// A reader of a document before its first byte.
    pub fn new(alloc: Global) -> Reader
        ensures read { HasRead [] [] false result }
        ensures reach { reach result.lines.split ≡ 1 }
    {
        Reader {
            lines: Lines::new(alloc),
            position: Position::new(alloc),
            ready: VecDeque::new(alloc),
            ending: None,
            is_spent: false,
        }
    }

    /// Takes the next piece of the document, of any size. What follows the first line that may not
    /// stand is ignored.
    ///
    /// It may not be called after `finish`, and at most 2^62 bytes may be fed in all. Out of memory
    /// loses a part of the document, and every later call that may be out of memory is.
    pub fn feed(&mut self, piece: &[u8]) -> Result<(), NoMemory>
        requires open { is_finished self.old.lines.phase ≡ false }
        requires few { reach self.old.lines.split + length piece.now < 2 ^ 63 }
        ensures read { OnOk result ((text : List ℕ) (taken : List BatchDoc)
            → HasRead text taken false self.old → HasRead (text
            ++ piece.now) taken false self.new) }
        ensures open { is_finished self.new.lines.phase ≡ false }
        ensures reach { reach self.new.lines.split ≤ reach self.old.lines.split + length piece.now }
        ensures spent { OnErr result (self.new.is_spent ≡ true) }
        ensures stays { self.old.is_spent ≡ true → IsErr result }
    {
        if self.is_spent {
            return Err(NoMemory);
        }
        if self.ending.is_some() {
            return Ok(());
        }
        match self.lines.feed(piece) {
            Ok(()) => self.read(),
            Err(NoMemory) => {
                self.is_spent = true;
                Err(NoMemory)
            }
        }
    }

    /// Reads the lines that are whole.
    fn read(&mut self) -> Result<(), NoMemory>
        requires whole { self.old.is_spent ≡ false }
        requires going { self.old.ending ≡ None }
        ensures read { OnOk result ((text : List ℕ) (taken : List BatchDoc) (finished : Bool)
            → IsReading text taken finished self.old.lines self.old.position self.old.ready
            → HasReadLines text taken finished self.new.ending
            self.new.lines self.new.position self.new.ready) }
        ensures whole { OnOk result (self.new.is_spent ≡ false) }
        ensures spent { OnErr result (self.new.is_spent ≡ true) }
        ensures phase { is_finished self.old.lines.phase ≡ false
            → is_finished self.new.lines.phase ≡ false }
        ensures reach { is_finished self.old.lines.phase ≡ false
            → reach self.new.lines.split ≡ reach self.old.lines.split }
    {
        match read_lines(&mut self.lines, &mut self.position, &mut self.ready) {
            Ok(ending) => {
                self.ending = ending;
                Ok(())
            }
            Err(NoMemory) => {
                self.is_spent = true;
                Err(NoMemory)
            }
        }
    }

    /// The next whole batch of the document so far, which is the caller's from then on. None comes
    /// exactly where every whole batch was taken.
    pub fn take(&mut self) -> Result<Option<BatchDoc>, NoMemory>
        ensures takes { (text : List ℕ) (taken : List BatchDoc) (finished : Bool)
            → HasRead text taken finished self.old → Takes text taken finished result self.new }
        ensures spent { self.old.is_spent ≡ true → IsErr result × (self.new.is_spent ≡ true) }
        ensures lines { self.new.lines ≡ self.old.lines }
    {
        if self.is_spent {
            return Err(NoMemory);
        }
        Ok(self.ready.pop_front())
    }

    /// Says that the document ends here, and tells how: clean, or with the line that may not stand,
    /// and why. The causes, the first that holds of a line: it is no line of fields; no directive
    /// has its name; the directive is refused by name; it may not stand there; it has too few or
    /// too many fields, or one that isn't what it asks for; a `commit` has another id than its
    /// batch. An end inside a batch, or between `old` and its row, is at the line that would begin
    /// after the last. The directives are those of the SymmetricDS guide's appendix on the CSV data
    /// format; where they may stand, and the causes, are symds' own. Called again it tells the
    /// same.
    pub fn finish(&mut self) -> Result<End, NoMemory>
        ensures read { IfOk result (λ ending.
            (text : List ℕ) (taken : List BatchDoc) (finished : Bool) → HasRead text taken finished self.old
            → (ending ≡ end_of text) × HasRead text taken true self.new) }
        ensures spent { OnErr result (self.new.is_spent ≡ true) }
        ensures stays { self.old.is_spent ≡ true → IsErr result }
    {
        if self.is_spent {
            return Err(NoMemory);
        }
        if let Some(ending) = self.ending {
            return Ok(ending);
        }
        self.lines.finish();
        self.read()?;
        Ok(self.end())
    }

    /// Tells how the document ends whose lines were read, and keeps it.
    fn end(&mut self) -> End
        requires { self.old.is_spent ≡ false }
        ensures { (text : List ℕ) (taken : List BatchDoc)
            → HasReadLines text taken true self.old.ending
            self.old.lines self.old.position self.old.ready
            → (result ≡ end_of text) × HasRead text taken true self.new }
    {
        if let Some(ending) = self.ending {
            return ending;
        }
        let ending = self.last_end();
        self.ending = Some(ending);
        ending
    }

    /// How a document ends whose last line was read.
    fn last_end(&self) -> End
        ensures { (older : List DocLine) → IsPositionAfter older self.now.position
            → result ≡ last_end (is_unfinished older) (next_number (left self.now.lines)) }
    {
        if self.position.is_unfinished() {
            End::Broken {
                line: self.lines.number(),
                cause: DocumentCause::Unfinished,
            }
        } else {
            End::Clean
        }
    }

    /// The node of the document, and the number of the line that names it. None comes exactly where
    /// no whole `nodeid` line stands in the document so far, before the first line that may not
    /// stand.
    pub fn node(&self) -> Option<(&Txt, u64)>
        ensures { (text : List ℕ) (taken : List BatchDoc) (finished : Bool)
            → HasRead text taken finished self.now
            → MatchOption result (node_in finished text ≡ None)
            (λ node. node_in finished text ≡ Some (record { id = node.0.now; line = node.1 })) }
    {
        match &self.position.node {
            None => None,
            Some(node) => Some((&node.id, node.line)),
        }
    }
}
