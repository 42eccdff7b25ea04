ghost use Rattle.sds_first_laws.specs.Link.{LanesStayInStep, MessagesStayInStep};

/// Between two nodes that began as each other's peers every lane is in step, whatever messages and replies are lost,
/// repeated or reordered: the receiver has loaded a front of the sender's batches, each once and in order, and the
/// sender takes no more of them for loaded.
pub fn lanes_stay_in_step()
    ensures { LanesStayInStep }
{}

/// Each message ever made between them lies in what the sender made, and begins at most behind what is loaded; each ok
/// of a reply ever made names a loaded batch.
pub fn messages_stay_in_step()
    ensures { MessagesStayInStep }
{}
