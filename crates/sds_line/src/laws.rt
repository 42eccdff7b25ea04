//! The laws of lines: that what is written reads back, and how a text comes apart into its lines.
ghost use Rattle.std.specs.Prelude.{◌≡◌, ◌+◌, ◌<◌, ◌≤◌, ◌++◌, ◌∷◌, [], ℕ, Bool, List, length, All};
ghost use Rattle.std.specs.Prelude.{IsTrue, true, false, Ok, Err, Some, None};
ghost use Rattle.sds_value.specs.declared.row.Field.{Field};
ghost use Rattle.sds_line.specs.declared.line.Line.{Line};
ghost use Rattle.sds_line.specs.declared.refusal.LineRefusal.{LineRefusal};
ghost use Rattle.sds_line.specs.declared.refusal.LineRefusal.TheVariants.{LineTooLong};
ghost use Rattle.sds_line.specs.Reading.{HalfLine, empty_line, with_byte, with_bytes, ended_line};
ghost use Rattle.sds_line.specs.Reading.{line_of};
ghost use Rattle.sds_line.specs.Splitting.{lines_from, lines_in, line_feeds, line_begun, is_end};
ghost use Rattle.sds_line.specs.Splitting.{refused, numbered, behind};
ghost use Rattle.sds_line.specs.Written.{written_line, has_form, are_fields};

/// The law that the written form of fields reads back as those fields: of each list but the empty
/// one and a lone null.
pub fn written_reads_back()
    ensures line { (fields : List Field) → IsTrue (are_fields fields) → IsTrue (has_form fields)
        → line_of (written_line fields) ≡ Ok fields }
{}

/// The law that a written line of at most 1,048,576 bytes reads back with its line feed as that
/// line, whatever follows it.
pub fn written_lines_read_back()
    ensures { (number : ℕ) (fields : List Field) (text : List ℕ) → IsTrue (are_fields fields)
        → IsTrue (has_form fields) → length (written_line fields) ≤ 1048576
        → lines_from number (written_line fields ++ 10 ∷ text)
        ≡ behind (numbered number fields)
        (lines_from (number + line_feeds (written_line fields) + 1) text) }
{}

/// The law that the lines of a text are what its lines read as alone, each without its line feed.
///
/// Of a line that is read and is not too long: the lines behind it follow, numbered by its line
/// feeds and the one that ends it. Of a front of a line that is not refused: a byte that ends no
/// line is refused in a text as in a line alone, and any such byte is too much behind 1,048,576
/// bytes. Of the end of the text: it is refused as the end of a line is.
pub fn lines_are_read_alone()
    ensures whole { (number : ℕ) (line text : List ℕ) (fields : List Field)
        → line_of line ≡ Ok fields → length line ≤ 1048576
        → lines_from number (line ++ 10 ∷ text)
        ≡ behind (numbered number fields) (lines_from (number + line_feeds line + 1) text) }
    ensures last { (number : ℕ) (line : List ℕ) (fields : List Field) → line_of line ≡ Ok fields
        → length line ≤ 1048576
        → ((lines_from number line).lines ≡ numbered number fields)
        × ((lines_from number line).stop ≡ None) }
    ensures refused { (number : ℕ) (front more : List ℕ) (b : ℕ) (half : HalfLine)
        (refusal : LineRefusal) → with_bytes empty_line front ≡ Ok half
        → length front < 1048576 → is_end half b ≡ false → with_byte half b ≡ Err refusal
        → lines_from number (front ++ b ∷ more) ≡ refused (line_begun number front half) refusal }
    ensures too_long { (number : ℕ) (front more : List ℕ) (b : ℕ) (half : HalfLine)
        → with_bytes empty_line front ≡ Ok half → length front ≡ 1048576
        → is_end half b ≡ false
        → lines_from number (front ++ b ∷ more)
        ≡ refused (line_begun number front half) LineTooLong }
    ensures unended { (number : ℕ) (front : List ℕ) (half : HalfLine) (refusal : LineRefusal)
        → with_bytes empty_line front ≡ Ok half → 0 < length front → length front ≤ 1048576
        → ended_line half ≡ Err refusal
        → lines_from number front ≡ refused (line_begun number front half) refusal }
{}

/// The law that a refusal comes at the first byte from which on no way to go on is a line: behind
/// it every line is refused for that cause, and before it some way to go on is a line.
pub fn refusals_come_first()
    ensures hopeless { (front more : List ℕ) (refusal : LineRefusal)
        → with_bytes empty_line front ≡ Err refusal → line_of (front ++ more) ≡ Err refusal }
    ensures hopeful { (front : List ℕ) (half : HalfLine) → with_bytes empty_line front ≡ Ok half
        → (more : List ℕ) × (fields : List Field) × (line_of (front ++ more) ≡ Ok fields) }
{}

/// The law that every text of every line of a text is made of characters, whatever bytes the text
/// has.
pub fn lines_are_of_characters()
    ensures { (finished : Bool) (text : List ℕ)
        → All (λ (line : Line). are_fields line.fields ≡ true) (lines_in finished text).lines }
{}

/// The law that the lines of a front of a text are the first lines of the text.
///
/// Of a text that goes on, and of one whose end comes to be known: lines are added behind those
/// that it has. Where a front is refused, whatever follows it and its end change nothing.
pub fn lines_go_on()
    ensures on { (finished : Bool) (front more : List ℕ)
        → (rest : List Line)
        × ((lines_in finished (front ++ more)).lines ≡ (lines_in false front).lines ++ rest) }
    ensures end { (text : List ℕ)
        → (rest : List Line) × ((lines_in true text).lines ≡ (lines_in false text).lines ++ rest) }
    ensures refused { (finished : Bool) (front more : List ℕ) (refusal : LineRefusal)
        → (lines_in false front).stop ≡ Some refusal
        → lines_in finished (front ++ more) ≡ lines_in false front }
    ensures refused_end { (text : List ℕ) (refusal : LineRefusal)
        → (lines_in false text).stop ≡ Some refusal → lines_in true text ≡ lines_in false text }
{}
