//! Routers.
use crate::{ColumnTest, Lookup, Subselect};
use sds_base::{List, NoMemory, Twin, Txt};
use std::alloc::Global;

/// How a router names its nodes (the SymmetricDS guide's chapter on routers).
#[derive(Clone, Copy, Debug, PartialEq, Eq)]
pub enum RouterKind {
    /// Every node of the target group.
    Default,
    /// Those for which a test on the row's columns holds.
    Column,
    /// Those that a row of another table names.
    LookupTable,
    /// Those that a choice from a table gives.
    Subselect,
}

/// Which nodes of the target group a change at a node of the source group goes to.
#[derive(Debug, Drop)]
pub struct RouterDef {
    pub id: Txt,
    /// The place of the group at whose nodes it applies.
    pub source_group: u32,
    /// The place of the group whose nodes it names.
    pub target_group: u32,
    pub kind: RouterKind,
    /// The expression as the file writes it.
    pub expression: Txt,
    /// What the expression says.
    pub parsed: RouterExpression,
}

/// What a router's expression says.
#[derive(Debug, Drop)]
pub enum RouterExpression {
    /// Of a `default` router: every node.
    Everything,
    /// Of a `column` router: one of these tests holds.
    Tests(List<ColumnTest>),
    /// Of a `lookuptable` router.
    Finds(Lookup),
    /// Of a `subselect` router.
    Chooses(Subselect),
}

impl Twin for RouterDef {
    fn twin(&self, alloc: Global) -> Result<RouterDef, NoMemory> {
        Ok(RouterDef {
            id: self.id.twin(alloc)?,
            source_group: self.source_group,
            target_group: self.target_group,
            kind: self.kind,
            expression: self.expression.twin(alloc)?,
            parsed: self.parsed.twin(alloc)?,
        })
    }
}

impl Twin for RouterExpression {
    fn twin(&self, alloc: Global) -> Result<RouterExpression, NoMemory> {
        Ok(match self {
            RouterExpression::Everything => RouterExpression::Everything,
            RouterExpression::Tests(tests) => RouterExpression::Tests(tests.twin(alloc)?),
            RouterExpression::Finds(lookup) => RouterExpression::Finds(lookup.twin(alloc)?),
            RouterExpression::Chooses(choice) => RouterExpression::Chooses(choice.twin(alloc)?),
        })
    }
}
