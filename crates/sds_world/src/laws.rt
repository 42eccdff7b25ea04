//! Laws of every scenario.
ghost use Rattle.sds_world.specs.Always.{ScenariosStayInStep};

/// Under a sound configuration, after each line of each scenario up to the first that may not stand
/// the nodes are in step: what each loaded of another in a channel are the first batches that the
/// other made for it, each once and in their order; no more is acknowledged than is loaded; every
/// message and every reply fits both.
pub fn scenarios_stay_in_step()
    ensures step { ScenariosStayInStep }
{}
