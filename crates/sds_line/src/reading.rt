ghost use Rattle.std.specs.Prelude.{◌≡◌, ◌≢◌, Ok, Err, IfOk, IfErr};
ghost use Rattle.sds_line.specs.Reading.{line_of};

use crate::{Draft, LineRefusal};
use sds_base::List;
use sds_value::Field;
use std::alloc::Global;

/// The fields of one line, without its line feed and of any length.
///
/// Fields are divided by commas, and the spaces, tabs and carriage returns round them are left out. Nothing between
/// two commas is a null. A field in quotes is the text between them, in which a backslash stands before each quote
/// and each backslash; any other field is its text. A blank line, and one whose first character behind spacing is
/// `#`, have no fields. The first byte from which on no way to go on is a line settles the refusal: `BareQuote`, also
/// for a line feed outside quotes, `BadEscape` or `NotUtf8`; an end inside a character is `NotUtf8`, and one inside
/// quotes `OpenQuote`. `LineTooLong` never comes. `NoMemory` comes of want of memory alone. The form is symds' own.
pub fn read_line(alloc: Global, bytes: &[u8]) -> Result<List<Field>, LineRefusal>
    ensures ok { IfOk result (λ fields. line_of bytes.now ≡ Ok fields) }
    ensures err { IfErr result (λ refusal. refusal ≢ LineRefusal.NoMemory → line_of bytes.now ≡ Err refusal) }
{
    let mut draft = Draft::new(alloc);
    for byte in bytes {
        draft.take(*byte)?;
    }
    Ok(List::of(draft.end()?))
}
