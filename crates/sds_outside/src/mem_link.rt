// A link in memory, which has its replies prepared and fails at the calls of a list.
ghost use Rattle.std.specs.Prelude.{◌≡◌, ◌≤◌, ◌<◌, ◌+◌, [], ◌∷◌, length, drop, false, IfOk, IfNone, IfSome, OnOk};
ghost use Rattle.sds_outside.specs.Exchanges.{exchange_of, has_reply};

use crate::calls::Calls;
use crate::{Exchange, Fail, Link, REPLY_LIMIT};
use sds_base::{Bytes, List, NoMemory, Twin};
use std::alloc::Global;

/// A link with prepared replies. It tells the exchanges that it made; a call that failed is none of them.
#[derive(Drop)]
pub struct MemLink {
    alloc: Global,
    replies: List<Bytes>,
    at: usize,
    made: Vec<Exchange>,
    calls: Calls,
    faults: u64,
}

impl MemLink {
    ghost use Rattle.sds_outside.specs.MemLinking.{link_replies, link_exchanges, link_faults, link_fails, link_calls};

    /// A link that gives these replies in order, and whose calls with the listed numbers fail. Calls are
    /// counted from 1.
    pub fn new(alloc: Global, replies: List<Bytes>, fails: List<u64>) -> MemLink
        ensures replies { link_replies result ≡ Some replies }
        ensures exchanges { link_exchanges result ≡ Some [] }
        ensures fails { link_fails result ≡ fails }
        ensures calls { link_calls result ≡ 0 }
        ensures faults { link_faults result ≡ 0 }
    {
        MemLink {
            alloc,
            replies,
            at: 0,
            made: Vec::new(alloc),
            calls: Calls::new(fails),
            faults: 0,
        }
    }

    /// A link that gives these replies in order, and fails only where none is left.
    pub fn sound(alloc: Global, replies: List<Bytes>) -> MemLink
        ensures replies { link_replies result ≡ Some replies }
        ensures exchanges { link_exchanges result ≡ Some [] }
        ensures fails { link_fails result ≡ [] }
        ensures calls { link_calls result ≡ 0 }
        ensures faults { link_faults result ≡ 0 }
    {
        MemLink::new(alloc, replies, List::new(alloc))
    }

    /// The exchanges made so far, oldest first.
    pub fn exchanges(&self) -> &[Exchange]
        ensures { link_exchanges self.now ≡ Some result.now }
    {
        &self.made
    }
}

impl Link for MemLink {
    ghost use Rattle.std.specs.Prelude.{◌↔◌, IsTrue, OnErr, IsErrOf};
    ghost use Rattle.sds_outside.specs.Causes.{Rose, next_number};
    ghost use Rattle.sds_outside.specs.Exchanges.{exchange_of, told_exchange, before_reply};
    ghost use Rattle.sds_outside.specs.MemLinking.{link_replies, link_exchanges, link_faults, link_fails, link_calls, exchange_fails};

    ghost replies = { link_replies };

    ghost exchanges = { link_exchanges };

    ghost faults = { link_faults };

    fn exchange(&mut self, request: &[u8], reply: &mut Vec<u8>) -> Result<(), Fail>
        ensures replied { OnOk result (link_replies self.old ≡ before_reply reply.new.items (link_replies self.new)) }
        ensures made { OnOk result (link_exchanges self.new ≡ told_exchange (link_exchanges self.old) (exchange_of request.now (Some reply.new.items))) }
        ensures bound { OnOk result (length reply.new.items ≤ REPLY_LIMIT) }
        ensures waiting { OnErr result (link_replies self.new ≡ link_replies self.old) }
        ensures kept { OnErr result (link_exchanges self.new ≡ link_exchanges self.old) }
        ensures later { link_faults self.old ≤ link_faults self.new }
        ensures rose { IsErrOf result Fail.Failed → Rose (link_faults self.old) (link_faults self.new) }
        ensures failed { IsErrOf result Fail.Failed ↔ IsTrue (exchange_fails self.old) }
        ensures quiet { exchange_fails self.old ≡ false → link_faults self.new ≡ link_faults self.old }
        ensures calls { link_calls self.new ≡ next_number (link_calls self.old) }
        ensures fails { link_fails self.new ≡ link_fails self.old }
    {
        let fails = self.calls.next_fails();
        let Some(prepared) = reply_at(self.replies.inner(), self.at) else {
            self.faults = self.faults.saturating_add(1);
            return Err(Fail::Failed);
        };
        if fails {
            self.faults = self.faults.saturating_add(1);
            return Err(Fail::Failed);
        }
        let exchange = copy_exchange(self.alloc, request, prepared)?;
        copy_into(prepared, reply)?;
        if self.made.push(exchange).is_err() {
            return Err(Fail::NoMemory);
        }
        self.at += 1;
        Ok(())
    }
}

/// The prepared reply at a place, where there is one and it isn't too long.
fn reply_at(replies: &[Bytes], at: usize) -> Option<&Bytes>
    ensures none { IfNone result (has_reply (drop at replies.now) ≡ false) }
    ensures next { IfSome result (λ reply. drop at replies.now ≡ reply.now ∷ drop (at + 1) replies.now) }
    ensures fits { IfSome result (λ reply. length reply.now ≤ REPLY_LIMIT) }
    ensures within { IfSome result (λ reply. at < length replies.now) }
{
    let reply = replies.get(at)?;
    if reply.inner().len() <= REPLY_LIMIT {
        Some(reply)
    } else {
        None
    }
}

/// The exchange of a request and its reply, in memory of its own.
fn copy_exchange(alloc: Global, request: &[u8], reply: &Bytes) -> Result<Exchange, NoMemory>
    ensures { IfOk result (λ exchange. exchange ≡ exchange_of request.now (Some reply.now)) }
{
    Ok(Exchange {
        request: Bytes::of(request.to_vec(alloc)?),
        reply: Some(reply.twin(alloc)?),
    })
}

/// Puts a reply in the place of whatever stood there.
fn copy_into(prepared: &Bytes, reply: &mut Vec<u8>) -> Result<(), NoMemory>
    ensures { OnOk result (reply.new.items ≡ prepared.now) }
{
    reply.clear();
    reply.extend_from_slice(prepared.inner())?;
    Ok(())
}
