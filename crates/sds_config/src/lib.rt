//! The configuration file: what it may hold, and its reading as the plain data of sds_types.
#![tactic(auto)]

mod channels;
mod columns;
mod computed;
mod conflicts;
mod ends;
mod fields;
mod formulas;
mod groups;
mod laws;
mod links;
mod named;
mod pairs;
mod position;
mod read;
mod reading;
mod routers;
mod rules;
mod sections;
mod tables;
mod transforms;
mod triggers;
mod words;

pub use laws::{files_have_one_reading, unlisted_keys_go_by_byte_order};
pub use read::ReadConfig;
pub use sds_types::{
    Action, Algorithm, ChannelDef, ColumnExpression, ColumnKind, ColumnPolicy, Config,
    ConfigRefusal, ConflictDef, DeleteAction, DetectType, LinkDef, Point, ResolveType, RouterDef,
    RouterExpression, RouterKind, TransformColumn, TransformDef, TriggerDef, TriggerRouterDef,
};
pub use sds_value::{ColumnDef, TableDef};
