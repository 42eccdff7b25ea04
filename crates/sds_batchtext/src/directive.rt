//! The directives of a document: what the first field of a line says.
ghost use Rattle.std.specs.Prelude.{◌≡◌};
ghost use Rattle.sds_batchtext.specs.Directives as named;

use crate::words::is_word;
use sds_base::Txt;
use sds_types::DocumentCause;
use sds_value::Field;

/// What a line of a document does (the SymmetricDS guide's appendix on the CSV data format).
#[derive(Clone, Copy, Debug, PartialEq, Eq)]
pub enum Directive {
    /// `nodeid`: the sender.
    NodeId,
    /// `binary`: how bytes are written from here on.
    Binary,
    /// `channel`: the channel of the batches from here on.
    Channel,
    /// `batch`: a batch begins.
    Batch,
    /// `table`: the current table of the batch.
    Table,
    /// `keys`: the names of the current table's key columns.
    Keys,
    /// `columns`: the names of the current table's columns.
    Columns,
    /// `insert`: a row that was inserted.
    Insert,
    /// `update`: a row that was updated.
    Update,
    /// `old`: the old row of the update or delete that follows.
    Old,
    /// `delete`: a row that was deleted.
    Delete,
    /// `commit`: the batch ends.
    Commit,
    /// `schema`, `catalog`, `stats_columns`, `stats`, `ts`: nothing that symds needs.
    Skipped,
}

/// The directive of a line with these fields, or why it has none that is obeyed.
pub(crate) fn directive_of(fields: &[Field]) -> Result<Directive, DocumentCause>
    ensures { result ≡ named.directive_of fields.now }
{
    match fields {
        [Field::Text(word), ..] => directive_named(word),
        _ => Err(DocumentCause::UnknownDirective),
    }
}

fn directive_named(word: &Txt) -> Result<Directive, DocumentCause>
    ensures { result ≡ named.directive_named word.now }
{
    if let Some(directive) = row_directive(word) {
        return Ok(directive);
    }
    if let Some(directive) = table_directive(word) {
        return Ok(directive);
    }
    if let Some(directive) = document_directive(word) {
        return Ok(directive);
    }
    if is_skipped(word) {
        return Ok(Directive::Skipped);
    }
    if is_refused(word) {
        return Err(DocumentCause::RefusedDirective);
    }
    Err(DocumentCause::UnknownDirective)
}

fn row_directive(word: &Txt) -> Option<Directive>
    ensures { result ≡ named.row_directive word.now }
{
    if is_word(word, "insert") {
        Some(Directive::Insert)
    } else if is_word(word, "update") {
        Some(Directive::Update)
    } else if is_word(word, "old") {
        Some(Directive::Old)
    } else if is_word(word, "delete") {
        Some(Directive::Delete)
    } else {
        None
    }
}

fn table_directive(word: &Txt) -> Option<Directive>
    ensures { result ≡ named.table_directive word.now }
{
    if is_word(word, "table") {
        Some(Directive::Table)
    } else if is_word(word, "keys") {
        Some(Directive::Keys)
    } else if is_word(word, "columns") {
        Some(Directive::Columns)
    } else {
        None
    }
}

fn document_directive(word: &Txt) -> Option<Directive>
    ensures { result ≡ named.document_directive word.now }
{
    if is_word(word, "nodeid") {
        Some(Directive::NodeId)
    } else if is_word(word, "binary") {
        Some(Directive::Binary)
    } else if is_word(word, "channel") {
        Some(Directive::Channel)
    } else if is_word(word, "batch") {
        Some(Directive::Batch)
    } else if is_word(word, "commit") {
        Some(Directive::Commit)
    } else {
        None
    }
}

fn is_skipped(word: &Txt) -> bool
    ensures { result ≡ named.is_skipped word.now }
{
    is_word(word, "schema")
        || is_word(word, "catalog")
        || is_word(word, "stats_columns")
        || is_word(word, "stats")
        || is_word(word, "ts")
}

fn is_refused(word: &Txt) -> bool
    ensures { result ≡ named.is_refused word.now }
{
    is_word(word, "sql") || is_word(word, "bsh") || is_word(word, "create")
}
