//! A law of the order of delivery, over the definitions alone.
ghost use Rattle.std.specs.Prelude.{◌≡◌, ℕ, List, Some, All, slice_get};
ghost use Rattle.std.specs.List.{enumerate_from};
ghost use Rattle.sds_types.specs.declared.batch.OutBatch.{OutBatch};
ghost use Rattle.sds_history.specs.world.DeliverOrder.{deliver_order};

/// The law that each batch that is delivered is the batch of the message at its place.
pub fn delivered_batches_are_of_the_message()
    ensures { (mentions : List ℕ) (batches : List OutBatch)
        → All (λ (at : ℕ × OutBatch). slice_get batches at.0 ≡ Some at.1)
        (deliver_order mentions (enumerate_from 0 batches)) }
{}
