//! What is kept of the lines of a document that were read: where it stands, and the batch that is
//! open.
ghost use Rattle.std.specs.Prelude.{◌≡◌, IfOk, OnOk, ℕ, List, [], ◌∷◌, take, drop, true, false, Some, None};
ghost use Rattle.sds_batchtext.specs.declared.doc_line.DocLine.{DocLine};
ghost use Rattle.sds_batchtext.specs.declared.doc_line.DocLine.TheVariants as line;
ghost use Rattle.sds_batchtext.specs.DocLines.{directive_for};
ghost use Rattle.sds_batchtext.specs.LookingBack.{is_open};
ghost use Rattle.sds_batchtext.specs.Judging as stated;
ghost use Rattle.sds_batchtext.specs.Documents.{and_one, batch_said, is_unfinished};
ghost use Rattle.sds_batchtext.specs.Positions.{IsPositionAfter, HasTaken, goes_on};

use crate::heading::given_text;
use crate::line_reading::line_said;
use crate::table_names::{TableNames, names_at, put_names};
use crate::{Directive, DocLine, Heading, NodeLine, directive_of};
use sds_base::{List, NoMemory, Twin, Txt};
use sds_line::Line;
use sds_types::{BatchDoc, DocumentCause};
use sds_value::{Binary, DocRow, Event, Field};
use std::alloc::Global;
use std::collections::VecDeque;
use std::mem;

/// What is kept of the lines of a document that were read.
#[derive(Debug, Drop)]
pub(crate) struct Position {
    /// The document's node.
    pub(crate) node: Option<NodeLine>,
    /// How the bytes of the next batch are written.
    pub(crate) binary: Binary,
    /// The channel of the next batch, and of the open one.
    pub(crate) channel: Option<Txt>,
    /// The id of the open batch.
    pub(crate) batch: Option<u64>,
    /// The current table of the open batch.
    pub(crate) heading: Heading,
    /// The keys of each table.
    pub(crate) keys: Vec<TableNames>,
    /// The columns of each table.
    pub(crate) columns: Vec<TableNames>,
    /// The old row that waits for its update or delete.
    pub(crate) pending: Option<List<Field>>,
    /// The rows of the open batch.
    pub(crate) rows: List<DocRow>,
}

/// No table.
fn no_heading() -> Heading
    ensures { result ≡ record { table = None; keys = None; columns = None } }
{
    Heading {
        table: None,
        keys: None,
        columns: None,
    }
}

/// What may stand after an old row that waits.
fn follows_old(directive: Directive) -> bool
    ensures { result ≡ stated.follows_old directive }
{
    matches!(
        directive,
        Directive::Update | Directive::Delete | Directive::Skipped
    )
}

/// The line without its directive.
fn arguments_of(fields: List<Field>) -> List<Field>
    ensures { result ≡ drop 1 fields }
{
    let mut fields = fields.into_inner();
    if !fields.is_empty() {
        fields.remove(0);
    }
    List::of(fields)
}

/// The first values, so many, and those after them.
fn parted(values: List<Field>, count: usize) -> Result<(List<Field>, List<Field>), NoMemory>
    ensures { IfOk result (λ parts. (parts.0 ≡ take count values) × (parts.1 ≡ drop count values)) }
{
    let mut values = values.into_inner();
    let later = values.split_off(count.min(values.len()))?;
    Ok((List::of(values), List::of(later)))
}

impl Position {
    /// Before the first line of a document.
    pub(crate) fn new(alloc: Global) -> Position
        ensures { IsPositionAfter [] result }
    {
        Position {
            node: None,
            binary: Binary::Base64,
            channel: None,
            batch: None,
            heading: no_heading(),
            keys: Vec::new(alloc),
            columns: Vec::new(alloc),
            pending: None,
            rows: List::new(alloc),
        }
    }

    /// Takes a line, and puts the batch that it ends to those that are ready; or says why the line
    /// may not stand here.
    pub(crate) fn take_line(
        &mut self,
        alloc: Global,
        line: Line,
        ready: &mut VecDeque<BatchDoc>,
    ) -> Result<Option<DocumentCause>, NoMemory>
        ensures { IfOk result (λ refused. (older : List DocLine) → IsPositionAfter older self.old
            → HasTaken older (stated.judged older line.number line.fields)
            refused self.new ready.old.items ready.new.items) }
    {
        let Line { number, fields } = line;
        match self.judge(alloc, number, fields)? {
            Err(cause) => Ok(Some(cause)),
            Ok(said) => {
                self.take(alloc, said, ready)?;
                Ok(None)
            }
        }
    }

    /// What a line says where it may stand, or the first of the causes for which it may not.
    fn judge(
        &self,
        alloc: Global,
        number: u64,
        fields: List<Field>,
    ) -> Result<Result<DocLine, DocumentCause>, NoMemory>
        ensures judged { IfOk result (λ judged. (older : List DocLine)
            → IsPositionAfter older self.now → judged ≡ stated.judged older number fields) }
        ensures stands { IfOk result (λ judged. IfOk judged (λ said. (older : List DocLine)
            → IsPositionAfter older self.now
            → stated.may_stand older (directive_for said) ≡ true)) }
    {
        let directive = match directive_of(fields.inner().as_slice()) {
            Ok(directive) => directive,
            Err(cause) => return Ok(Err(cause)),
        };
        if !self.may_stand(directive) {
            return Ok(Err(DocumentCause::OutOfPlace));
        }
        match line_said(alloc, number, directive, arguments_of(fields))? {
            None => Ok(Err(DocumentCause::BadFields)),
            Some(said) => Ok(self.judge_said(said)),
        }
    }

    fn judge_said(&self, said: DocLine) -> Result<DocLine, DocumentCause>
        ensures judged { (older : List DocLine) → IsPositionAfter older self.now
            → stated.may_stand older (directive_for said) ≡ true
            → result ≡ stated.judged_said older (Some said) }
        ensures same { IfOk result (λ line. line ≡ said) }
    {
        if !self.heading.has_values(&said) {
            return Err(DocumentCause::BadFields);
        }
        if !self.has_its_id(&said) {
            return Err(DocumentCause::CommitMismatch);
        }
        Ok(said)
    }

    /// Whether a batch is open, or an old row waits.
    pub(crate) fn is_unfinished(&self) -> bool
        ensures { (older : List DocLine) → IsPositionAfter older self.now
            → result ≡ is_unfinished older }
    {
        self.batch.is_some() || self.pending.is_some()
    }

    /// Whether a line with the directive may stand here.
    fn may_stand(&self, directive: Directive) -> bool
        ensures { (older : List DocLine) → IsPositionAfter older self.now
            → result ≡ stated.may_stand older directive }
    {
        (self.pending.is_none() || follows_old(directive)) && self.has_place(directive)
    }

    fn has_place(&self, directive: Directive) -> bool
        ensures { (older : List DocLine) → IsPositionAfter older self.now
            → result ≡ stated.has_place older directive }
    {
        let is_open = self.batch.is_some();
        match directive {
            Directive::NodeId => !is_open && (self.node.is_none() && self.channel.is_none()),
            Directive::Binary => !is_open,
            Directive::Channel => !is_open && self.node.is_some(),
            Directive::Batch => !is_open && self.channel.is_some(),
            Directive::Table | Directive::Commit => is_open,
            Directive::Keys | Directive::Columns => is_open && self.heading.table.is_some(),
            Directive::Insert | Directive::Update | Directive::Old | Directive::Delete => {
                is_open && self.heading.is_complete()
            }
            Directive::Skipped => true,
        }
    }

    /// Whether a `commit` line has the id of the open batch.
    fn has_its_id(&self, line: &DocLine) -> bool
        ensures { (older : List DocLine) → IsPositionAfter older self.now
            → stated.may_stand older (directive_for line.now) ≡ true
            → result ≡ stated.has_its_id older line.now }
    {
        match line {
            DocLine::Commit(id) => self.batch == Some(*id),
            _ => true,
        }
    }

    /// Takes what a line says that may stand here.
    fn take(
        &mut self,
        alloc: Global,
        said: DocLine,
        ready: &mut VecDeque<BatchDoc>,
    ) -> Result<(), NoMemory>
        ensures { OnOk result ((older : List DocLine) → IsPositionAfter older self.old
            → stated.may_stand older (directive_for said) ≡ true
            → IsPositionAfter (said ∷ older) self.new
            × (ready.new.items ≡ and_one ready.old.items (batch_said older said))) }
    {
        match said {
            DocLine::Skipped => Ok(()),
            DocLine::Commit(id) => self.end_batch(alloc, id, ready),
            said => self.take_inside(alloc, said),
        }
    }

    /// Takes what a line says that ends no batch.
    fn take_inside(&mut self, alloc: Global, said: DocLine) -> Result<(), NoMemory>
        requires { goes_on said ≡ true }
        ensures { OnOk result ((older : List DocLine) → IsPositionAfter older self.old
            → stated.may_stand older (directive_for said) ≡ true
            → IsPositionAfter (said ∷ older) self.new) }
    {
        match said {
            DocLine::NodeId(node) => self.set_node(node),
            DocLine::Binary(binary) => self.set_binary(binary),
            DocLine::Channel(name) => self.set_channel(name),
            DocLine::Batch(id) => self.begin_batch(id),
            DocLine::Table(name) => self.set_table(alloc, name),
            DocLine::Keys(names) => self.set_keys(alloc, names),
            DocLine::Columns(names) => self.set_columns(alloc, names),
            DocLine::Insert(values) => self.add_insert(alloc, values),
            DocLine::Update(values) => self.add_update(alloc, values),
            DocLine::Old(values) => self.hold_old(values),
            DocLine::Delete(values) => self.add_delete(alloc, values),
            DocLine::Commit(_) | DocLine::Skipped => unreachable!(),
        }
    }

    fn set_node(&mut self, node: NodeLine) -> Result<(), NoMemory>
        ensures { (older : List DocLine) → IsPositionAfter older self.old
            → IsPositionAfter (line.NodeId node ∷ older) self.new }
    {
        self.node = Some(node);
        self.pending = None;
        Ok(())
    }

    fn set_binary(&mut self, binary: Binary) -> Result<(), NoMemory>
        ensures { (older : List DocLine) → IsPositionAfter older self.old
            → IsPositionAfter (line.Binary binary ∷ older) self.new }
    {
        self.binary = binary;
        self.pending = None;
        Ok(())
    }

    fn set_channel(&mut self, name: Txt) -> Result<(), NoMemory>
        ensures { (older : List DocLine) → IsPositionAfter older self.old
            → IsPositionAfter (line.Channel name ∷ older) self.new }
    {
        self.channel = Some(name);
        self.pending = None;
        Ok(())
    }

    fn begin_batch(&mut self, id: u64) -> Result<(), NoMemory>
        ensures { (older : List DocLine) → IsPositionAfter older self.old → is_open older ≡ false
            → IsPositionAfter (line.Batch id ∷ older) self.new }
    {
        let alloc = *self.keys.allocator();
        self.batch = Some(id);
        self.heading = no_heading();
        self.pending = None;
        self.rows = List::new(alloc);
        Ok(())
    }

    fn set_table(&mut self, alloc: Global, name: Txt) -> Result<(), NoMemory>
        ensures { OnOk result ((older : List DocLine) → IsPositionAfter older self.old
            → IsPositionAfter (line.Table name ∷ older) self.new) }
    {
        let keys = names_at(alloc, &name, self.keys.as_slice())?;
        let columns = names_at(alloc, &name, self.columns.as_slice())?;
        self.heading = Heading {
            table: Some(name),
            keys,
            columns,
        };
        self.pending = None;
        Ok(())
    }

    fn set_keys(&mut self, alloc: Global, names: List<Txt>) -> Result<(), NoMemory>
        ensures { OnOk result ((older : List DocLine) → IsPositionAfter older self.old
            → IsPositionAfter (line.Keys names ∷ older) self.new) }
    {
        if let Some(table) = &self.heading.table {
            put_names(alloc, &mut self.keys, table, &names)?;
            self.heading.keys = Some(names);
        }
        self.pending = None;
        Ok(())
    }

    fn set_columns(&mut self, alloc: Global, names: List<Txt>) -> Result<(), NoMemory>
        ensures { OnOk result ((older : List DocLine) → IsPositionAfter older self.old
            → IsPositionAfter (line.Columns names ∷ older) self.new) }
    {
        if let Some(table) = &self.heading.table {
            put_names(alloc, &mut self.columns, table, &names)?;
            self.heading.columns = Some(names);
        }
        self.pending = None;
        Ok(())
    }

    fn add_insert(&mut self, alloc: Global, values: List<Field>) -> Result<(), NoMemory>
        ensures { OnOk result ((older : List DocLine) → IsPositionAfter older self.old
            → IsPositionAfter (line.Insert values ∷ older) self.new) }
    {
        let row = self
            .heading
            .row(alloc, Event::Insert, values, List::new(alloc), None)?;
        self.pending = None;
        self.rows.push(row)
    }

    fn add_update(&mut self, alloc: Global, values: List<Field>) -> Result<(), NoMemory>
        ensures { OnOk result ((older : List DocLine) → IsPositionAfter older self.old
            → IsPositionAfter (line.Update values ∷ older) self.new) }
    {
        let (new, key) = parted(values, self.heading.width())?;
        let old = self.pending.take();
        let row = self.heading.row(alloc, Event::Update, new, key, old)?;
        self.rows.push(row)
    }

    fn add_delete(&mut self, alloc: Global, values: List<Field>) -> Result<(), NoMemory>
        ensures { OnOk result ((older : List DocLine) → IsPositionAfter older self.old
            → IsPositionAfter (line.Delete values ∷ older) self.new) }
    {
        let old = self.pending.take();
        let row = self
            .heading
            .row(alloc, Event::Delete, List::new(alloc), values, old)?;
        self.rows.push(row)
    }

    fn hold_old(&mut self, values: List<Field>) -> Result<(), NoMemory>
        ensures { (older : List DocLine) → IsPositionAfter older self.old
            → IsPositionAfter (line.Old values ∷ older) self.new }
    {
        self.pending = Some(values);
        Ok(())
    }

    fn end_batch(
        &mut self,
        alloc: Global,
        id: u64,
        ready: &mut VecDeque<BatchDoc>,
    ) -> Result<(), NoMemory>
        ensures { OnOk result ((older : List DocLine) → IsPositionAfter older self.old
            → is_open older ≡ true
            → IsPositionAfter (line.Commit id ∷ older) self.new
            × (ready.new.items ≡ and_one ready.old.items (batch_said older (line.Commit id)))) }
    {
        let channel = given_text(alloc, &self.channel)?;
        let rows = mem::replace(&mut self.rows, List::new(alloc));
        ready.push_back(BatchDoc {
            channel,
            batch: id,
            binary: self.binary,
            rows,
        })?;
        self.batch = None;
        self.heading = no_heading();
        self.pending = None;
        Ok(())
    }
}
