//! The rules on rows.
ghost use Rattle.std.specs.Prelude.{◌≡◌};
ghost use Rattle.sds_types.specs.Rules.{name_of, number_of};

/// What a row can break. The rules, their numbers and the order in which they are judged are symds' own.
#[derive(Clone, Copy, Debug, PartialEq, Eq)]
pub enum Rule {
    /// The configuration has no table of this name.
    UnknownTable,
    /// A column is named that the table lacks, or twice, or there are too few or too many fields.
    UnknownColumn,
    /// Other columns are given as the key than those of the table's key, or one of them has no value.
    MissingKey,
    /// A text doesn't read as a value of its column's kind.
    BadValue,
    /// A text or bytes are longer than their column takes.
    TooLong,
    /// A column that refuses null would get it.
    NullNotAllowed,
    /// Another row of the table has the new key.
    DuplicateKey,
    /// An own update or delete is of a key that no row has.
    RowMissing,
    /// The row would refer to a row that there is not.
    MissingParent,
    /// A row would be left that refers to the old key.
    HasChildren,
    /// An insert into tables that hold 200,000 rows.
    TableFull,
    /// A conflict that waits for a person.
    ManualConflict,
    /// An old value or a column that detection, resolution or a sum asks for isn't given.
    OldMissing,
    /// A sum has no room in 64 bits.
    SumOutOfRange,
    /// The step would be captured while 100,000 changes wait to be routed.
    CaptureFull,
    /// The configuration has no channel of the batch's name. No row is looked at.
    UnknownChannel,
}

impl Rule {
    /// The rule's number, 1 to 16, as screens and replies print it.
    pub fn number(self) -> u8
        ensures { result ≡ number_of self }
    {
        match self {
            Rule::UnknownTable => 1,
            Rule::UnknownColumn => 2,
            Rule::MissingKey => 3,
            Rule::BadValue => 4,
            Rule::TooLong => 5,
            Rule::NullNotAllowed => 6,
            Rule::DuplicateKey => 7,
            Rule::RowMissing => 8,
            Rule::MissingParent => 9,
            Rule::HasChildren => 10,
            Rule::TableFull => 11,
            Rule::ManualConflict => 12,
            Rule::OldMissing => 13,
            Rule::SumOutOfRange => 14,
            Rule::CaptureFull => 15,
            Rule::UnknownChannel => 16,
        }
    }

    /// The rule's name, as messages print it.
    pub fn name(self) -> &'static str
        ensures { result.now ≡ name_of self }
    {
        match self {
            Rule::UnknownTable => "UnknownTable",
            Rule::UnknownColumn => "UnknownColumn",
            Rule::MissingKey => "MissingKey",
            Rule::BadValue => "BadValue",
            Rule::TooLong => "TooLong",
            Rule::NullNotAllowed => "NullNotAllowed",
            Rule::DuplicateKey => "DuplicateKey",
            Rule::RowMissing => "RowMissing",
            Rule::MissingParent => "MissingParent",
            Rule::HasChildren => "HasChildren",
            Rule::TableFull => "TableFull",
            Rule::ManualConflict => "ManualConflict",
            Rule::OldMissing => "OldMissing",
            Rule::SumOutOfRange => "SumOutOfRange",
            Rule::CaptureFull => "CaptureFull",
            Rule::UnknownChannel => "UnknownChannel",
        }
    }
}
