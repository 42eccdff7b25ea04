//! What a transform's column makes of the text of its source, and at which events it takes part.
ghost use Rattle.std.specs.Prelude.{◌≡◌, ◌-◌, ◌||◌, true, IfOk, option_copied, take, drop, codes, string_bytes};
ghost use Rattle.std.specs.Option.{option_or};
ghost use Rattle.std.specs.Str.{chars, encode_utf8_all};
ghost use Rattle.sds_value.specs.declared.row.Field.TheVariants.{Text};
ghost use Rattle.sds_transform.specs.Kinds.{is_of_text};
ghost use Rattle.sds_trade.specs.rules.ColumnFunctions as computed;

use sds_base::{NoMemory, Twin, Txt};
use sds_types::{ColumnExpression, ColumnKind, MapPair, NodeWord, Substring, TransformColumn, Way};
use sds_value::{Event, Field};
use std::alloc::Global;

/// Whether the column takes a column of the source away.
pub(crate) fn is_remove(kind: ColumnKind) -> bool
    ensures { result ≡ computed.is_remove kind }
{
    kind == ColumnKind::Remove
}

/// Whether the column takes part at an event: `*` stands for all events, and else each has its
/// letter. An additive column takes no part at a delete.
pub(crate) fn takes_part(event: Event, column: &TransformColumn) -> bool
    ensures { result ≡ computed.takes_part event column.now }
{
    includes(&column.include_on, event)
        && !(column.kind == ColumnKind::Additive && event == Event::Delete)
}

fn includes(letters: &Txt, event: Event) -> bool
    ensures { result ≡ (computed.is_all_events letters.now
        || computed.has_letter letters.now (computed.letter_of event)) }
{
    is_all_events(letters) || has_letter(letters, letter_of(event))
}

fn is_all_events(letters: &Txt) -> bool
    ensures { result ≡ computed.is_all_events letters.now }
{
    letters.is("*")
}

fn has_letter(letters: &Txt, letter: char) -> bool
    ensures { result ≡ computed.has_letter letters.now letter }
{
    letters.as_str().chars().any(|other| other == letter)
}

fn letter_of(event: Event) -> char
    ensures { result ≡ computed.letter_of event }
{
    match event {
        Event::Insert => 'I',
        Event::Update => 'U',
        Event::Delete => 'D',
    }
}

/// What an expression makes of its source's field: null of null, but for a constant and a variable.
pub(crate) fn field_made(
    alloc: Global,
    way: &Way,
    expression: &ColumnExpression,
    source: &Field,
) -> Result<Field, NoMemory>
    ensures { IfOk result (λ made. made ≡ computed.field_made way.now expression.now source.now) }
{
    match expression {
        ColumnExpression::Const(text) => Ok(Field::Text(text.twin(alloc)?)),
        ColumnExpression::Variable(node) => Ok(Field::Text(node_of(way, *node).twin(alloc)?)),
        _ => match source {
            Field::Null => Ok(Field::Null),
            Field::Text(text) => text_made(alloc, way, expression, text),
        },
    }
}

/// What an expression other than a constant or a variable makes of a text.
fn text_made(
    alloc: Global,
    way: &Way,
    expression: &ColumnExpression,
    text: &Txt,
) -> Result<Field, NoMemory>
    requires { is_of_text expression.now ≡ true }
    ensures { IfOk result (λ made. made
        ≡ computed.field_made way.now expression.now (Text text.now)) }
{
    match expression {
        ColumnExpression::Left(count) => Ok(Field::Text(between(alloc, 0, *count, text)?)),
        ColumnExpression::Substr(piece) => Ok(Field::Text(piece_of(alloc, *piece, text)?)),
        ColumnExpression::ValueMap(pairs) => mapped_text(alloc, pairs.inner().as_slice(), text),
        _ => Ok(Field::Text(text.twin(alloc)?)),
    }
}

/// The characters of a text from one place on, and before another, which end where the text ends.
fn piece_of(alloc: Global, piece: Substring, text: &Txt) -> Result<Txt, NoMemory>
    ensures { IfOk result (λ made. made ≡ computed.piece_of piece text.now) }
{
    match piece.end {
        None => rest_of(alloc, piece.first, text),
        Some(end) => between(alloc, piece.first, end.saturating_sub(piece.first), text),
    }
}

fn rest_of(alloc: Global, first: u32, text: &Txt) -> Result<Txt, NoMemory>
    ensures { IfOk result (λ rest. rest ≡ drop first text.now) }
{
    let rest = dropped(alloc, text.as_str(), first as usize)?;
    Ok(Txt::of(rest))
}

/// So many characters of a text from one place on, which end where the text ends.
fn between(alloc: Global, first: u32, count: u32, text: &Txt) -> Result<Txt, NoMemory>
    ensures { IfOk result (λ made. made ≡ take count (drop first text.now)) }
{
    let made = taken(alloc, text.as_str(), first as usize, count as usize)?;
    Ok(Txt::of(made))
}

fn dropped(alloc: Global, text: &str, first: usize) -> Result<String, NoMemory>
    ensures { IfOk result (λ made. string_bytes made
        ≡ encode_utf8_all (drop first (chars text.now))) }
{
    let made: String = text.chars().skip(first).collect(alloc)?;
    Ok(made)
}

fn taken(alloc: Global, text: &str, first: usize, count: usize) -> Result<String, NoMemory>
    ensures { IfOk result (λ made. string_bytes made
        ≡ encode_utf8_all (take count (drop first (chars text.now)))) }
{
    let made: String = text.chars().skip(first).take(count).collect(alloc)?;
    Ok(made)
}

/// The target of the text, else that of `*`, else null.
fn mapped_text(alloc: Global, pairs: &[MapPair], text: &Txt) -> Result<Field, NoMemory>
    ensures { IfOk result (λ made. made ≡ computed.mapped_text pairs.now text.now) }
{
    match target_for(pairs, text) {
        None => Ok(Field::Null),
        Some(target) => Ok(Field::Text(target.twin(alloc)?)),
    }
}

/// The target of the text, else that of `*`.
#[tactic(auto, using(crate::proofs::Texts::star_characters))]
fn target_for<'a>(pairs: &'a [MapPair], text: &Txt) -> Option<&'a Txt>
    ensures { option_copied result ≡ option_or (computed.target_of pairs.now text.now)
        (computed.target_of pairs.now (codes "*")) }
{
    match target_of(pairs, text.as_str()) {
        None => target_of(pairs, "*"),
        Some(target) => Some(target),
    }
}

/// The target of the first pair of a source.
fn target_of<'a>(pairs: &'a [MapPair], source: &str) -> Option<&'a Txt>
    ensures { option_copied result ≡ computed.target_of pairs.now (chars source.now) }
{
    for pair in pairs {
        if pair.source.is(source) {
            return Some(&pair.target);
        }
    }
    None
}

fn node_of(way: &Way, node: NodeWord) -> &Txt
    ensures { result.now ≡ computed.node_of way.now node }
{
    match node {
        NodeWord::SourceNode => &way.source,
        NodeWord::TargetNode => &way.target,
    }
}
