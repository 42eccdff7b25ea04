//! Whom an expression names for a change.
ghost use Rattle.std.specs.Prelude.{◌≡◌, true, false};
ghost use Rattle.std.specs.List.{list_any};
ghost use Rattle.sds_value.specs.declared.row.Peer.{Peer};
ghost use Rattle.sds_router.specs.Asks.{is_met, is_named_by};

use crate::ask::Ask;
use sds_base::List;
use sds_value::Peer;
use std::alloc::Global;

/// Whom an expression names for a change: everyone, or the nodes that meet one of the questions.
#[derive(Debug, Drop)]
pub(crate) struct Naming {
    pub(crate) everyone: bool,
    pub(crate) asks: List<Ask>,
}

impl Naming {
    pub(crate) fn everyone(alloc: Global) -> Naming
        ensures { (peer : Peer) → is_named_by peer result ≡ true }
    {
        Naming {
            everyone: true,
            asks: List::new(alloc),
        }
    }

    pub(crate) fn nobody(alloc: Global) -> Naming
        ensures { (peer : Peer) → is_named_by peer result ≡ false }
    {
        Naming {
            everyone: false,
            asks: List::new(alloc),
        }
    }

    /// The nodes that meet one of these questions.
    pub(crate) fn by(asks: Vec<Ask>) -> Naming
        ensures { (peer : Peer) → is_named_by peer result ≡ list_any (is_met peer) asks.items }
    {
        Naming {
            everyone: false,
            asks: List::of(asks),
        }
    }

    /// Whether it names a node.
    pub(crate) fn names(&self, peer: &Peer) -> bool
        ensures { result ≡ is_named_by peer.now self.now }
    {
        self.everyone || is_one_met(self.asks.inner(), peer)
    }
}

fn is_one_met(asks: &[Ask], peer: &Peer) -> bool
    ensures { result ≡ list_any (is_met peer.now) asks.now }
{
    for ask in asks {
        if ask.is_met(peer) {
            return true;
        }
    }
    false
}
