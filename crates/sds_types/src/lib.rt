//! Plain data of the trade, without logic: the configuration, rows and changes, batches and documents, the answers and
//! refusals of every call, and a scenario's lines and events. What is computed of them is said and done elsewhere.
//!
//! A place is a number that stands for an entry of a list of the configuration, counted from 0. A number of an act, a
//! change, a transaction, a batch, a message or a reply counts from 1. Causes, refusals and statuses are enums; where the
//! outside sees a number of them, `number` gives it, and `name` gives their word.
#![tactic(auto)]

mod ack;
mod batch;
mod channel;
mod column_test;
mod config;
mod config_refusal;
mod conflict;
mod counts;
mod cut;
mod document;
mod lane;
pub mod limits;
mod link;
mod load_answer;
mod load_row;
mod lookup;
mod message;
mod node_fault;
mod peer;
mod prepared;
mod registration;
mod router;
mod row;
mod rule;
mod same;
mod scenario;
mod state_refusal;
mod status;
mod subselect;
mod sync;
#[cfg(test)]
mod tests;
mod transform;
mod transform_column;
mod trigger;
mod tx_row;
mod way;
mod world_event;
mod write_answer;

pub use ack::{Ack, AckRefusal, AcksRefusal};
pub use batch::{NewBatch, OutBatch, Standing};
pub use channel::{Algorithm, ChannelDef};
pub use column_test::{ColumnTest, Operand};
pub use config::Config;
pub use config_refusal::ConfigRefusal;
pub use conflict::{ConflictDef, DetectType, Resolution, ResolveType, Verdict};
pub use counts::{Counts, WriterLast};
pub use cut::Cut;
pub use document::{BatchDoc, DocumentCause, End};
pub use lane::{LaneError, LaneIn};
pub use link::{Action, LinkDef};
pub use load_answer::{LoadAnswer, PeerRefusal};
pub use load_row::{Addend, LoadRow};
pub use lookup::Lookup;
pub use message::{Message, MessagePart, Reply};
pub use node_fault::NodeFault;
pub use peer::KeptPeer;
pub use prepared::{Body, Prepared};
pub use registration::{CreateRefusal, Opening, RegRefusal, Stage};
pub use router::{RouterDef, RouterExpression, RouterKind};
pub use row::{Change, Key, Row, RowStep, TableRow};
pub use rule::Rule;
pub use scenario::{ScenarioCause, ScenarioLine, WorldRefusal};
pub use state_refusal::StateRefusal;
pub use status::{InputCause, Status, Unreadable};
pub use subselect::{Compared, Condition, NodeColumn, Subselect};
pub use sync::{PushRefusal, SyncRefusal};
pub use transform::{Add, ColumnPolicy, DeleteAction, Point, Shaped, TransformDef};
pub use transform_column::{
    ColumnExpression, ColumnKind, MapPair, NodeWord, Substring, TransformColumn,
};
pub use trigger::{TriggerDef, TriggerRouterDef};
pub use tx_row::{Broken, TxRow};
pub use way::Way;
pub use world_event::WorldEvent;
pub use write_answer::{WriteRefusal, Written};
