//! What stands before a part among those that records tell.
ghost use Rattle.std.specs.Prelude.{◌<◌, ◌^◌, ◌∷◌, ◌++◌, [], List, OnOk};
ghost use Rattle.sds_records.specs.declared.told.Told.{Told};
ghost use Rattle.sds_image.specs.PartsSeen.{AreEarlier};

use crate::Told;
use sds_base::{List, NoMemory};
use sds_types::{Opening, OutBatch};
use std::alloc::Global;

/// What stands before a part, as far as parts are judged by it.
#[derive(Drop)]
pub(crate) struct Earlier<'a> {
    /// How many peers.
    pub(crate) peers: u64,
    /// How many rows.
    pub(crate) rows: u64,
    pub(crate) openings: List<&'a Opening>,
    pub(crate) batches: List<&'a OutBatch>,
}

impl<'a> Earlier<'a> {
    /// Nothing.
    pub(crate) fn new(alloc: Global) -> Earlier<'a>
        ensures { AreEarlier result [] }
    {
        Earlier {
            peers: 0,
            rows: 0,
            openings: List::new(alloc),
            batches: List::new(alloc),
        }
    }

    /// Adds the next part.
    pub(crate) fn add(&mut self, part: &'a Told) -> Result<(), NoMemory>
        requires peers { self.old.peers < 2 ^ 63 }
        requires rows { self.old.rows < 2 ^ 63 }
        ensures { OnOk result ((before : List Told) → AreEarlier self.old before
            → AreEarlier self.new (before ++ part.now ∷ [])) }
    {
        match part {
            Told::Peer(_) => self.peers += 1,
            Told::Row(_) => self.rows += 1,
            Told::Opening(opening) => self.openings.push(opening)?,
            Told::Batch(batch) => self.batches.push(batch)?,
            Told::Me(_) => {}
            Told::Counts(_) => {}
            Told::Writer(_) => {}
            Told::Change(_) => {}
            Told::Lane(_) => {}
        }
        Ok(())
    }
}
