//! The columns of a transform.
use sds_base::{List, NoMemory, Twin, Txt};
use std::alloc::Global;

/// How a transform computes a column (the SymmetricDS guide's chapter on transforms).
#[derive(Clone, Copy, Debug, PartialEq, Eq)]
pub enum ColumnKind {
    /// The source's text as it is.
    Copy,
    /// No column: the one of this name is left out.
    Remove,
    /// The expression.
    Const,
    /// The first characters of the source's text.
    Left,
    /// A piece of the source's text.
    Substr,
    /// What a list has for the source's text.
    ValueMap,
    /// The id of the sending or of the receiving node.
    Variable,
    /// The change of the source's number, added to the number that stands.
    Additive,
}

/// A column of a transform.
#[derive(Debug, Drop)]
pub struct TransformColumn {
    /// The name of the column that is made.
    pub target: Txt,
    /// The name of the column that it is made from, or empty.
    pub source: Txt,
    /// Whether it is a key of the made row.
    pub pk: bool,
    /// `*`, or the letters of the events at which it takes part: `I`, `U`, `D`.
    pub include_on: Txt,
    pub kind: ColumnKind,
    /// The expression as the file writes it.
    pub expression: Txt,
    /// What the expression says.
    pub parsed: ColumnExpression,
}

/// What the expression of a transform's column says (the SymmetricDS guide's chapter on transforms): all that computes the
/// column's value, beside the value of its source.
#[derive(Debug, Drop)]
pub enum ColumnExpression {
    /// Of `copy` and of `remove`: the text is not used.
    Unused,
    /// Of `const`: the text that the column gets, which is the whole expression.
    Const(Txt),
    /// Of `left`: how many characters it takes from the front of the source's text, 0 to 2,000.
    Left(u32),
    /// Of `substr`: the piece of the source's text that it takes.
    Substr(Substring),
    /// Of `valueMap`: texts of the source, each with the text that stands for it; the source `*` is that of every other text.
    ValueMap(List<MapPair>),
    /// Of `variable`: the node whose id the column gets.
    Variable(NodeWord),
    /// Of `additive`: by how much the change of the source's number is multiplied before it is added to the column's, from
    /// -1,000,000 to 1,000,000.
    Additive(i32),
}

/// The node whose id a `variable` gives: the one that the row comes from, or the one that it goes to.
#[derive(Clone, Copy, Debug, PartialEq, Eq)]
pub enum NodeWord {
    SourceNode,
    TargetNode,
}

/// A piece of a text, by the places of characters from 0: from the first up to the end, the end not included, or to the
/// text's end.
#[derive(Clone, Copy, Debug, PartialEq, Eq)]
pub struct Substring {
    pub first: u32,
    pub end: Option<u32>,
}

/// A text of a source, and what stands for it.
#[derive(Debug, Drop)]
pub struct MapPair {
    pub source: Txt,
    pub target: Txt,
}

impl Twin for TransformColumn {
    fn twin(&self, alloc: Global) -> Result<TransformColumn, NoMemory> {
        Ok(TransformColumn {
            target: self.target.twin(alloc)?,
            source: self.source.twin(alloc)?,
            pk: self.pk,
            include_on: self.include_on.twin(alloc)?,
            kind: self.kind,
            expression: self.expression.twin(alloc)?,
            parsed: self.parsed.twin(alloc)?,
        })
    }
}

impl Twin for ColumnExpression {
    fn twin(&self, alloc: Global) -> Result<ColumnExpression, NoMemory> {
        Ok(match self {
            ColumnExpression::Unused => ColumnExpression::Unused,
            ColumnExpression::Const(text) => ColumnExpression::Const(text.twin(alloc)?),
            ColumnExpression::Left(count) => ColumnExpression::Left(*count),
            ColumnExpression::Substr(piece) => ColumnExpression::Substr(*piece),
            ColumnExpression::ValueMap(pairs) => ColumnExpression::ValueMap(pairs.twin(alloc)?),
            ColumnExpression::Variable(node) => ColumnExpression::Variable(*node),
            ColumnExpression::Additive(factor) => ColumnExpression::Additive(*factor),
        })
    }
}

impl Twin for MapPair {
    fn twin(&self, alloc: Global) -> Result<MapPair, NoMemory> {
        Ok(MapPair {
            source: self.source.twin(alloc)?,
            target: self.target.twin(alloc)?,
        })
    }
}
