//! Exact equality of configurations, which the first rehearsal alone asks for.
use crate::{
    Action, Algorithm, ChannelDef, ColumnExpression, ColumnKind, ColumnPolicy, ColumnTest,
    Compared, Condition, Config, ConflictDef, DeleteAction, DetectType, LinkDef, Lookup, MapPair,
    NodeColumn, NodeWord, Operand, Point, ResolveType, RouterDef, RouterExpression, RouterKind,
    Subselect, Substring, TransformColumn, TransformDef, TriggerDef, TriggerRouterDef,
};
use sds_base::Same;

impl Same for Action {
    fn same(&self, other: &Action) -> bool {
        *self == *other
    }
}

impl Same for Algorithm {
    fn same(&self, other: &Algorithm) -> bool {
        *self == *other
    }
}

impl Same for RouterKind {
    fn same(&self, other: &RouterKind) -> bool {
        *self == *other
    }
}

impl Same for Point {
    fn same(&self, other: &Point) -> bool {
        *self == *other
    }
}

impl Same for DeleteAction {
    fn same(&self, other: &DeleteAction) -> bool {
        *self == *other
    }
}

impl Same for ColumnPolicy {
    fn same(&self, other: &ColumnPolicy) -> bool {
        *self == *other
    }
}

impl Same for ColumnKind {
    fn same(&self, other: &ColumnKind) -> bool {
        *self == *other
    }
}

impl Same for DetectType {
    fn same(&self, other: &DetectType) -> bool {
        *self == *other
    }
}

impl Same for ResolveType {
    fn same(&self, other: &ResolveType) -> bool {
        *self == *other
    }
}

impl Same for LinkDef {
    fn same(&self, other: &LinkDef) -> bool {
        *self == *other
    }
}

impl Same for TriggerRouterDef {
    fn same(&self, other: &TriggerRouterDef) -> bool {
        *self == *other
    }
}

impl Same for ConflictDef {
    fn same(&self, other: &ConflictDef) -> bool {
        *self == *other
    }
}

impl Same for ChannelDef {
    fn same(&self, other: &ChannelDef) -> bool {
        self.id.same(&other.id)
            && self.processing_order.same(&other.processing_order)
            && self.max_batch_size.same(&other.max_batch_size)
            && self.max_batch_to_send.same(&other.max_batch_to_send)
            && self.batch_algorithm.same(&other.batch_algorithm)
    }
}

impl Same for TriggerDef {
    fn same(&self, other: &TriggerDef) -> bool {
        self.id.same(&other.id)
            && self.source_table.same(&other.source_table)
            && self.channel.same(&other.channel)
            && self.sync_on_insert.same(&other.sync_on_insert)
            && self.sync_on_update.same(&other.sync_on_update)
            && self.sync_on_delete.same(&other.sync_on_delete)
            && self
                .sync_on_incoming_batch
                .same(&other.sync_on_incoming_batch)
    }
}

impl Same for RouterDef {
    fn same(&self, other: &RouterDef) -> bool {
        self.id.same(&other.id)
            && self.source_group.same(&other.source_group)
            && self.target_group.same(&other.target_group)
            && self.kind.same(&other.kind)
            && self.expression.same(&other.expression)
            && self.parsed.same(&other.parsed)
    }
}

impl Same for RouterExpression {
    fn same(&self, other: &RouterExpression) -> bool {
        match (self, other) {
            (RouterExpression::Everything, RouterExpression::Everything) => true,
            (RouterExpression::Tests(a), RouterExpression::Tests(b)) => a.same(b),
            (RouterExpression::Finds(a), RouterExpression::Finds(b)) => a.same(b),
            (RouterExpression::Chooses(a), RouterExpression::Chooses(b)) => a.same(b),
            _ => false,
        }
    }
}

impl Same for TransformColumn {
    fn same(&self, other: &TransformColumn) -> bool {
        self.target.same(&other.target)
            && self.source.same(&other.source)
            && self.pk.same(&other.pk)
            && self.include_on.same(&other.include_on)
            && self.kind.same(&other.kind)
            && self.expression.same(&other.expression)
            && self.parsed.same(&other.parsed)
    }
}

impl Same for ColumnExpression {
    fn same(&self, other: &ColumnExpression) -> bool {
        match (self, other) {
            (ColumnExpression::Unused, ColumnExpression::Unused) => true,
            (ColumnExpression::Const(a), ColumnExpression::Const(b)) => a.same(b),
            (ColumnExpression::Left(a), ColumnExpression::Left(b)) => a.same(b),
            (ColumnExpression::Substr(a), ColumnExpression::Substr(b)) => a.same(b),
            (ColumnExpression::ValueMap(a), ColumnExpression::ValueMap(b)) => a.same(b),
            (ColumnExpression::Variable(a), ColumnExpression::Variable(b)) => a.same(b),
            (ColumnExpression::Additive(a), ColumnExpression::Additive(b)) => a.same(b),
            _ => false,
        }
    }
}

impl Same for TransformDef {
    fn same(&self, other: &TransformDef) -> bool {
        self.id.same(&other.id)
            && self.source_group.same(&other.source_group)
            && self.target_group.same(&other.target_group)
            && self.point.same(&other.point)
            && self.source_table.same(&other.source_table)
            && self.target_table.same(&other.target_table)
            && self.delete_action.same(&other.delete_action)
            && self.column_policy.same(&other.column_policy)
            && self.columns.same(&other.columns)
    }
}

impl Same for Config {
    fn same(&self, other: &Config) -> bool {
        self.groups.same(&other.groups)
            && self.links.same(&other.links)
            && self.channels.same(&other.channels)
            && self.tables.same(&other.tables)
            && self.triggers.same(&other.triggers)
            && self.routers.same(&other.routers)
            && self.trigger_routers.same(&other.trigger_routers)
            && self.transforms.same(&other.transforms)
            && self.conflicts.same(&other.conflicts)
    }
}

impl Same for Operand {
    fn same(&self, other: &Operand) -> bool {
        match (self, other) {
            (Operand::NodeId, Operand::NodeId)
            | (Operand::ExternalId, Operand::ExternalId)
            | (Operand::NodeGroupId, Operand::NodeGroupId)
            | (Operand::Null, Operand::Null) => true,
            (Operand::Text(a), Operand::Text(b)) => a.same(b),
            _ => false,
        }
    }
}

impl Same for ColumnTest {
    fn same(&self, other: &ColumnTest) -> bool {
        self.name.same(&other.name)
            && self.old.same(&other.old)
            && self.differs.same(&other.differs)
            && self.operand.same(&other.operand)
    }
}

impl Same for Lookup {
    fn same(&self, other: &Lookup) -> bool {
        self.table.same(&other.table)
            && self.column.same(&other.column)
            && self.lookup_column.same(&other.lookup_column)
            && self.external_id.same(&other.external_id)
    }
}

impl Same for NodeColumn {
    fn same(&self, other: &NodeColumn) -> bool {
        *self == *other
    }
}

impl Same for Compared {
    fn same(&self, other: &Compared) -> bool {
        match (self, other) {
            (Compared::Routed(a), Compared::Routed(b)) => a.same(b),
            (Compared::Text(a), Compared::Text(b)) => a.same(b),
            _ => false,
        }
    }
}

impl Same for Condition {
    fn same(&self, other: &Condition) -> bool {
        self.column.same(&other.column) && self.value.same(&other.value)
    }
}

impl Same for Subselect {
    fn same(&self, other: &Subselect) -> bool {
        self.by.same(&other.by)
            && self.column.same(&other.column)
            && self.table.same(&other.table)
            && self.conditions.same(&other.conditions)
    }
}

impl Same for NodeWord {
    fn same(&self, other: &NodeWord) -> bool {
        *self == *other
    }
}

impl Same for Substring {
    fn same(&self, other: &Substring) -> bool {
        self.first.same(&other.first) && self.end.same(&other.end)
    }
}

impl Same for MapPair {
    fn same(&self, other: &MapPair) -> bool {
        self.source.same(&other.source) && self.target.same(&other.target)
    }
}
