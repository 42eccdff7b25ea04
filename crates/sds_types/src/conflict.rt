//! Conflicts: how they are seen, and what is done about them.
use crate::{RowStep, Rule};
use sds_base::{NoMemory, Twin};
use std::alloc::Global;

/// How a conflict is seen (the SymmetricDS guide's chapter on conflicts).
#[derive(Clone, Copy, Debug, PartialEq, Eq)]
pub enum DetectType {
    /// By the key alone: an insert finds a row of its key, an update or a delete finds none.
    UsePkData,
    /// Beside that, an old value that the batch gives isn't the one that stands.
    UseOldData,
    /// Beside that, the old value of a column that an update changes isn't the one that stands.
    UseChangedData,
    /// Beside that, the old value of the column of the timestamp isn't the one that stands.
    UseTimestamp,
    /// Beside that, the old value of the column of the version isn't the one that stands.
    UseVersion,
}

/// What is done at a conflict (the SymmetricDS guide's chapter on conflicts).
#[derive(Clone, Copy, Debug, PartialEq, Eq)]
pub enum ResolveType {
    /// The row is made to stand all the same, an insert as an update or an update as an insert.
    Fallback,
    /// The row is skipped, or its whole batch.
    Ignore,
    /// The batch is in error until a person has looked at it.
    Manual,
    /// The row is made to stand where its timestamp or version is greater, and is skipped otherwise.
    NewerWins,
}

/// How conflicts in a table are seen and resolved between two groups. Where nothing is set for a table, conflicts are seen
/// by the key alone and resolved by `Fallback`.
#[derive(Clone, Copy, Debug, PartialEq, Eq)]
pub struct ConflictDef {
    /// The place of the sending group.
    pub source_group: u32,
    /// The place of the receiving group.
    pub target_group: u32,
    /// The place of the table.
    pub target_table: u32,
    pub detect_type: DetectType,
    /// The place of the column of the timestamp or version, or none.
    pub detect_expression: Option<u32>,
    pub resolve_type: ResolveType,
    /// Whether `Ignore` skips the row alone, or its whole batch.
    pub resolve_row_only: bool,
}

/// Whether a row of a batch conflicts with the row that stands.
#[derive(Clone, Copy, Debug, PartialEq, Eq)]
pub enum Verdict {
    No,
    Yes,
    /// The old value that is asked for isn't given.
    OldMissing,
}

/// What is to be done with a row of a batch.
#[derive(Debug, Drop)]
pub enum Resolution {
    /// This step is made.
    Apply(RowStep),
    /// The row is skipped.
    SkipRow,
    /// The whole batch is skipped, and counts as loaded.
    SkipBatch,
    /// The row breaks this rule, so nothing of its batch stands.
    Broken(Rule),
}

impl Twin for ConflictDef {
    fn twin(&self, _alloc: Global) -> Result<ConflictDef, NoMemory> {
        Ok(*self)
    }
}
