//! The expressions of a transform's columns.
ghost use Rattle.std.specs.Prelude.{◌≡◌, ◌≤◌, IfOk, option_map};
ghost use Rattle.sds_expressions.specs.Computed as wanted;

use crate::{plain_number, split_at};
use sds_base::{List, NoMemory, Txt};
use sds_types::{MapPair, NodeWord, Substring};
use std::alloc::Global;

/// The number of `left`: how many characters it takes, 0 to 2,000.
pub fn left_of(text: &str) -> Option<u32>
    ensures { result ≡ wanted.left_of text.now }
{
    plain_number(text.as_bytes(), 2_000)
}

/// The piece of `substr`: one number, or two that a comma joins, each 0 to 2,000.
pub fn substr_of(text: &str) -> Option<Substring>
    ensures { result ≡ wanted.substr_of text.now }
{
    match split_at(text, ',') {
        None => match left_of(text) {
            None => None,
            Some(first) => Some(Substring { first, end: None }),
        },
        Some((front, back)) => match (left_of(front), left_of(back)) {
            (Some(first), Some(end)) => Some(Substring {
                first,
                end: Some(end),
            }),
            _ => None,
        },
    }
}

/// The pairs of `valueMap`, which single spaces join; each is divided at its first `=`.
pub fn value_map_of(alloc: Global, text: &str) -> Result<Option<List<MapPair>>, NoMemory>
    ensures { IfOk result (λ pairs. pairs ≡ wanted.value_map_of text.now) }
{
    let mut pairs = Vec::new(alloc);
    let mut rest = text;
    while let Some((front, back)) = split_at(rest, ' ') {
        match pair_of(alloc, front)? {
            None => return Ok(None),
            Some(pair) => pairs.push(pair)?,
        }
        rest = back;
    }
    match pair_of(alloc, rest)? {
        None => return Ok(None),
        Some(pair) => pairs.push(pair)?,
    }
    Ok(Some(List::of(pairs)))
}

fn pair_of(alloc: Global, text: &str) -> Result<Option<MapPair>, NoMemory>
    ensures { IfOk result (λ pair. pair ≡ wanted.pair_of text.now) }
{
    match split_at(text, '=') {
        None => Ok(None),
        Some((source, target)) => Ok(Some(MapPair {
            source: Txt::copied(alloc, source)?,
            target: Txt::copied(alloc, target)?,
        })),
    }
}

/// The node that `variable` names: `source_node_id` or `target_node_id`.
pub fn variable_of(text: &str) -> Option<NodeWord>
    ensures { result ≡ wanted.variable_of text.now }
{
    if text == "source_node_id" {
        return Some(NodeWord::SourceNode);
    }
    if text == "target_node_id" {
        return Some(NodeWord::TargetNode);
    }
    None
}

/// The multiplier of `additive`: a number from -1,000,000 to 1,000,000, and 1 where it is empty.
pub fn multiplier_of(text: &str) -> Option<i32>
    ensures { result ≡ wanted.multiplier_of text.now }
{
    match text.as_bytes() {
        [] => Some(1),
        [b'-', digits @ ..] => negative_of(digits),
        digits => match plain_number(digits, 1_000_000) {
            None => None,
            Some(number) => Some(number as i32),
        },
    }
}

fn negative_of(digits: &[u8]) -> Option<i32>
    ensures { result ≡ wanted.negative_of digits.now }
{
    match plain_number(digits, 1_000_000) {
        None | Some(0) => None,
        Some(number) => Some(-(number as i32)),
    }
}
