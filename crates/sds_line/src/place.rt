ghost use Rattle.std.specs.Prelude.{◌≡◌};
ghost use Rattle.sds_line.specs.Places.{act_of, is_spacing, before_field};

use crate::LineRefusal;

/// Where in a line a byte stands.
#[derive(Clone, Copy, Debug, PartialEq, Eq)]
pub(crate) enum Place {
    /// Only spacing stands before it in the line.
    Start,
    /// Only spacing stands between it and the comma before it.
    Before,
    /// In a field without quotes.
    Plain,
    /// Inside quotes.
    Quoted,
    /// Inside quotes, behind a backslash.
    Escaped,
    /// Behind a closing quote.
    Behind,
    /// In a comment.
    Comment,
}

/// What a byte means that begins a character of a line.
#[derive(Clone, Copy, Debug, PartialEq, Eq)]
pub(crate) enum Act {
    /// It is no part of a field, and the line goes on at the place.
    Pass(Place),
    /// It begins a character of a field or of a comment, and the line goes on at the place.
    Add(Place),
    /// It ends a field, and another one follows.
    Divide,
    /// No line goes on so.
    Refuse(LineRefusal),
}

/// What a byte means that begins a character at a place of a line.
pub(crate) fn act_of(place: Place, byte: u8) -> Act
    ensures { result ≡ act_of place byte }
{
    match (place, byte) {
        (Place::Start, b'#') => Act::Pass(Place::Comment),
        (Place::Start, _) => before_field(Place::Start, byte),
        (Place::Before, _) => before_field(Place::Before, byte),
        (Place::Plain, b',') => Act::Divide,
        (Place::Plain, b'"' | b'\n') => Act::Refuse(LineRefusal::BareQuote),
        (Place::Plain, _) => Act::Add(Place::Plain),
        (Place::Quoted, b'"') => Act::Pass(Place::Behind),
        (Place::Quoted, b'\\') => Act::Pass(Place::Escaped),
        (Place::Quoted, _) => Act::Add(Place::Quoted),
        (Place::Escaped, b'"' | b'\\') => Act::Add(Place::Quoted),
        (Place::Escaped, _) => Act::Refuse(LineRefusal::BadEscape),
        (Place::Behind, b',') => Act::Divide,
        (Place::Behind, b' ' | b'\t' | b'\r') => Act::Pass(Place::Behind),
        (Place::Behind, _) => Act::Refuse(LineRefusal::BareQuote),
        (Place::Comment, b'\n') => Act::Refuse(LineRefusal::BareQuote),
        (Place::Comment, _) => Act::Add(Place::Comment),
    }
}

/// What a byte means before a field, where spacing keeps the place.
fn before_field(place: Place, byte: u8) -> Act
    ensures { result ≡ before_field place byte }
{
    match byte {
        b' ' | b'\t' | b'\r' => Act::Pass(place),
        b'"' => Act::Pass(Place::Quoted),
        b',' => Act::Divide,
        b'\n' => Act::Refuse(LineRefusal::BareQuote),
        _ => Act::Add(Place::Plain),
    }
}
