ghost use Rattle.sds_first_laws.specs.Once.{StaysRoutedOnce};

/// At a node with one peer, whatever acts it has made under the one configuration, each change that a routing run took
/// stands in exactly one batch to the peer where its routers named the peer at that run, and in none where they did not.
pub fn routed_once()
    ensures { StaysRoutedOnce }
{}
