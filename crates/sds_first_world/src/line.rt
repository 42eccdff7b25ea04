use sds_base::Txt;
use sds_types::TxRow;

/// The four lines with which a scenario begins, in this order.
#[derive(Clone, Copy, Debug, PartialEq, Eq)]
pub enum Opening {
    /// `node,corp,corp,corp`: the head office, a node of the group corp.
    Corp,
    /// `node,s1,store,001`: a store, a node of the group store.
    Store,
    /// `open,corp,store,001`: the head office opens registration for that store.
    Open,
    /// `register,s1,corp`: the store registers at the head office.
    Register,
}

/// What a line of a scenario says by itself that has fields, wherever it stands.
#[derive(Debug, Drop)]
pub enum Line {
    /// One of the four lines with which a scenario begins.
    Opening(Opening),
    /// `write,corp,WRITER,NUMBER`: a write of the head office begins, and its rows follow.
    Write { writer: Txt, number: u64 },
    /// `insert,pair,ID,TEXT`: a row of a write.
    Row(TxRow),
    /// `end`: the write that is open is complete.
    End,
    /// `route,corp`: a routing run of the head office.
    Route,
    /// `push,corp,s1`: the head office sends to the store.
    Push,
    /// `show,corp` or `show,s1`: the tables of a node.
    Show { node: Txt },
    /// Anything else, which no scenario may hold.
    Other,
}
