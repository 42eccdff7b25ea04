//! The lists of a state, gathered from the parts that records tell.
ghost use Rattle.std.specs.Prelude.{◌∷◌, [], List, IfOk, OnOk};
ghost use Rattle.sds_records.specs.declared.told.Told.{Told};
ghost use Rattle.sds_image.specs.PartsSeen.{Lead};

use crate::Told;
use sds_base::{List, NoMemory};
use sds_types::{Change, KeptPeer, LaneIn, Opening, OutBatch, WriterLast};
use sds_value::Peer;
use std::alloc::Global;
use std::collections::VecDeque;

/// The lists of a state but its rows, and the node itself.
#[derive(Drop)]
pub(crate) struct Lists {
    pub(crate) me: Option<Peer>,
    pub(crate) peers: List<KeptPeer>,
    pub(crate) openings: List<Opening>,
    pub(crate) writers: List<WriterLast>,
    pub(crate) changes: List<Change>,
    pub(crate) batches: List<OutBatch>,
    pub(crate) lanes: List<LaneIn>,
}

impl Lists {
    /// No part yet.
    fn new(alloc: Global) -> Lists
        ensures { (parts : List Told) → Lead result parts parts }
    {
        Lists {
            me: None,
            peers: List::new(alloc),
            openings: List::new(alloc),
            writers: List::new(alloc),
            changes: List::new(alloc),
            batches: List::new(alloc),
            lanes: List::new(alloc),
        }
    }

    /// Adds a part to the list of its kind.
    fn add(&mut self, part: Told) -> Result<(), NoMemory>
        ensures { OnOk result ((rest parts : List Told) → Lead self.old (part ∷ rest) parts
            → Lead self.new rest parts) }
    {
        match part {
            Told::Me(me) => {
                if self.me.is_none() {
                    self.me = Some(me);
                }
                Ok(())
            }
            Told::Peer(kept) => self.peers.push(kept),
            Told::Opening(opening) => self.openings.push(opening),
            Told::Writer(last) => self.writers.push(last),
            Told::Change(change) => self.changes.push(change),
            Told::Batch(batch) => self.batches.push(batch),
            Told::Lane(lane) => self.lanes.push(lane),
            Told::Counts(_) | Told::Row(_) => Ok(()),
        }
    }
}

/// The lists of these parts.
pub(crate) fn lists_of(alloc: Global, parts: Vec<Told>) -> Result<Lists, NoMemory>
    ensures { IfOk result (λ lists. Lead lists [] parts.items) }
{
    let mut lists = Lists::new(alloc);
    let mut parts = VecDeque::from(parts);
    while let Some(part) = parts.pop_front() {
        lists.add(part)?;
    }
    Ok(lists)
}
