ghost use Rattle.sds_first_laws.specs.Runs.{WritersStayInOrder};

/// At every node that began without a write, each writer's writes have the numbers 1, 2, 3 and so on, whatever calls
/// are made of it.
pub fn writers_stay_in_order()
    ensures { WritersStayInOrder }
{}
