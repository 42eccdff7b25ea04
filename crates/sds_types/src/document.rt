//! Batch documents.
ghost use Rattle.std.specs.Prelude.{◌≡◌};

use sds_base::{List, Txt};
use sds_value::{Binary, DocRow};

/// A batch as a document gives it (the SymmetricDS guide's appendix on the CSV data format).
#[derive(Debug, Drop)]
pub struct BatchDoc {
    pub channel: Txt,
    /// Its number at the sender, 1 to 2^62.
    pub batch: u64,
    /// How its bytes are written.
    pub binary: Binary,
    pub rows: List<DocRow>,
}

/// Why a document isn't read on.
#[derive(Clone, Copy, Debug, PartialEq, Eq)]
pub enum DocumentCause {
    /// The line is no line of fields.
    BadLine,
    /// No directive has that name.
    UnknownDirective,
    /// The directive is one that symds doesn't obey: `sql`, `bsh`, `create`.
    RefusedDirective,
    /// The directive may not stand here.
    OutOfPlace,
    /// The directive has too few or too many fields, or one that isn't what it asks for.
    BadFields,
    /// A `commit` has another number than its batch.
    CommitMismatch,
    /// The document ends inside a batch, or between `old` and its row.
    Unfinished,
    /// The document is another node's than the one that sent it.
    WrongNode,
    /// The document has more than 1 GiB.
    TooLong,
}

/// How a document ends.
#[derive(Clone, Copy, Debug, PartialEq, Eq)]
pub enum End {
    /// Every line was read.
    Clean,
    /// The line of this number, from 1, is the first that isn't read, for this cause.
    Broken { line: u64, cause: DocumentCause },
}

impl DocumentCause {
    ghost use Rattle.sds_types.specs.DocumentCauses.{name_of, number_of};

    /// The cause's number, 1 to 9 in the order above, as replies print it.
    pub fn number(self) -> u8
        ensures { result ≡ number_of self }
    {
        match self {
            DocumentCause::BadLine => 1,
            DocumentCause::UnknownDirective => 2,
            DocumentCause::RefusedDirective => 3,
            DocumentCause::OutOfPlace => 4,
            DocumentCause::BadFields => 5,
            DocumentCause::CommitMismatch => 6,
            DocumentCause::Unfinished => 7,
            DocumentCause::WrongNode => 8,
            DocumentCause::TooLong => 9,
        }
    }

    /// The cause's name, as messages print it.
    pub fn name(self) -> &'static str
        ensures { result.now ≡ name_of self }
    {
        match self {
            DocumentCause::BadLine => "BadLine",
            DocumentCause::UnknownDirective => "UnknownDirective",
            DocumentCause::RefusedDirective => "RefusedDirective",
            DocumentCause::OutOfPlace => "OutOfPlace",
            DocumentCause::BadFields => "BadFields",
            DocumentCause::CommitMismatch => "CommitMismatch",
            DocumentCause::Unfinished => "Unfinished",
            DocumentCause::WrongNode => "WrongNode",
            DocumentCause::TooLong => "TooLong",
        }
    }
}
