ghost use Rattle.std.specs.Prelude.{ℕ, List};
ghost use Rattle.sds_first_world.specs.Headline.{world_at, GoesOnce, TablesAreFolds};

/// After each event of each scenario, each change that a routing run took stands once in the batches to each peer that its
/// routers named at that run, and in no other batch.
pub fn routed_changes_go_once()
    ensures { (text : List ℕ) (n : ℕ) → GoesOnce (world_at text n) }
{}

/// After each event of each scenario, every node's tables are what its accepted writes and a front of each sender's batches
/// leave, each once, in the order of the node's commits.
pub fn tables_are_folds()
    ensures { (text : List ℕ) (n : ℕ) → TablesAreFolds (world_at text n) }
{}
