use crate::*;

#[test]
fn each_law_is_called(_rt: HostRuntime) {
    writers_stay_in_order();
    counters_never_fall();
    numbers_stay_within();
    lanes_stay_in_step();
    messages_stay_in_step();
    routed_once();
    pairs_stay_in_step();
}
