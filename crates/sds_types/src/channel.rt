//! Channels.
use sds_base::{NoMemory, Twin, Txt};
use std::alloc::Global;

/// Where a channel's batches end (the SymmetricDS guide's chapter on channels).
#[derive(Clone, Copy, Debug, PartialEq, Eq)]
pub enum Algorithm {
    /// At the first end of a transaction at which the batch is full.
    Default,
    /// At each end of a transaction.
    Transactional,
    /// Where the batch is full.
    Nontransactional,
}

/// A stream of batches with limits of its own. A batch in error holds up its channel alone.
#[derive(Debug, Drop)]
pub struct ChannelDef {
    pub id: Txt,
    /// Lower numbers go first; channels of one number go by id.
    pub processing_order: u32,
    /// How many changes make a batch full, 1 to 10,000.
    pub max_batch_size: u32,
    /// How many batches a message takes at most, 1 to 10,000.
    pub max_batch_to_send: u32,
    pub batch_algorithm: Algorithm,
}

impl Twin for ChannelDef {
    fn twin(&self, alloc: Global) -> Result<ChannelDef, NoMemory> {
        Ok(ChannelDef {
            id: self.id.twin(alloc)?,
            processing_order: self.processing_order,
            max_batch_size: self.max_batch_size,
            max_batch_to_send: self.max_batch_to_send,
            batch_algorithm: self.batch_algorithm,
        })
    }
}
