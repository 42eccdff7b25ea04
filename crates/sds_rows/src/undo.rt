//! Steps that were made, with what undoes them.
ghost use Rattle.std.specs.Prelude.{◌≡◌};

use sds_types::{Row, RowStep, TableRow};

/// What undoes a step of the tables.
#[derive(Debug, Drop)]
pub struct Undo {
    pub(crate) inverse: Inverse,
}

/// The inverse of a step, by the places of its rows.
#[derive(Debug, Drop)]
pub(crate) enum Inverse {
    /// The row at this place is taken out.
    Remove {
        at: usize,
    },
    /// This row is put in at this place.
    PutBack {
        at: usize,
        old: TableRow,
    },
    /// The row at this place is taken out, and then the old one is put in at its own.
    Exchange {
        at: usize,
        old_at: usize,
        old: TableRow,
    },
}

/// A step that was made, the row that stood before it, and what undoes it.
#[derive(Debug, Drop)]
pub struct Done {
    pub step: RowStep,
    /// The row before an update or a delete.
    pub old: Option<Row>,
    pub undo: Undo,
}

impl Done {
    /// What undoes the step.
    pub fn into_undo(self) -> Undo
        ensures { result ≡ self.undo }
    {
        let Done { undo, .. } = self;
        undo
    }
}
