// Requests to a peer, and its replies.
ghost use Rattle.std.specs.Prelude.{◌≡◌, ◌⊎◌, ◌≤◌, ℕ, List, Option, length, OnOk, OnErr, IsErrOf};
ghost use Rattle.sds_outside.specs.Causes.{Rose};

use crate::Fail;
use sds_base::{Bytes, NoMemory, Same, Twin};
use std::alloc::Global;

/// The most bytes that a reply has, over every link. A longer one counts as a fault.
pub const REPLY_LIMIT: usize = 1_073_774_592;

/// A request that was sent.
#[derive(Debug, Drop)]
pub struct Exchange {
    /// The bytes of the request.
    pub request: Bytes,
    /// The bytes of the reply that it got, or none.
    pub reply: Option<Bytes>,
}

impl Same for Exchange {
    fn same(&self, other: &Exchange) -> bool {
        self.request.same(&other.request) && self.reply.same(&other.reply)
    }
}

impl Twin for Exchange {
    fn twin(&self, alloc: Global) -> Result<Exchange, NoMemory> {
        Ok(Exchange {
            request: self.request.twin(alloc)?,
            reply: self.reply.twin(alloc)?,
        })
    }
}

/// A way to a peer. What a link tells it goes on telling in each call, and what it doesn't tell it never
/// begins to.
pub trait Link {
    ghost use Rattle.sds_outside.specs.Exchanges.{Exchange, exchange_of, told_exchange, before_reply};

    /// The replies that the requests to come get, in order, where the link tells them.
    ghost replies: { Self → Option (List (List ℕ)) };

    /// The exchanges made so far, oldest first, where the link tells them.
    ghost exchanges: { Self → Option (List Exchange) };

    /// How often it failed; it never falls, and stands still at the last value of a u64.
    ghost faults: { Self → ℕ };

    /// Sends a request and leaves its reply in `reply`, whatever stood there. Where it failed, or memory was
    /// wanting, the peer may have got the request or not, and what `reply` holds isn't said.
    fn exchange(&mut self, request: &[u8], reply: &mut Vec<u8>) -> Result<(), Fail>
        ensures replied { OnOk result (replies self.old ≡ before_reply reply.new.items (replies self.new)) }
        ensures made { OnOk result (exchanges self.new ≡ told_exchange (exchanges self.old) (exchange_of request.now (Option.Some reply.new.items))) }
        ensures bound { OnOk result (length reply.new.items ≤ REPLY_LIMIT) }
        ensures waiting { OnErr result (replies self.new ≡ replies self.old) }
        ensures tried { OnErr result ((exchanges self.new ≡ exchanges self.old) ⊎ (exchanges self.new ≡ told_exchange (exchanges self.old) (exchange_of request.now Option.None))) }
        ensures later { faults self.old ≤ faults self.new }
        ensures failed { IsErrOf result Fail.Failed → Rose (faults self.old) (faults self.new) };
}
