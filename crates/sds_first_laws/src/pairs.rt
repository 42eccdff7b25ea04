ghost use Rattle.sds_first_laws.specs.Pairs.{PairsStayInStep};

/// Two nodes under the one configuration that have begun as each other's peers, of which the one is written to, routes and pushes
/// and the other loads, are in step after every list of such events; and each push goes by the nodes' calls: the calls of the
/// receiver, by the numbers of the batches, make what the delivery by places makes.
pub fn pairs_stay_in_step()
    ensures { PairsStayInStep }
{}
