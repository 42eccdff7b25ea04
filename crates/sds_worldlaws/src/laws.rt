//! Laws of every world.
ghost use Rattle.sds_worldlaws.specs.Nodes.{RoutedOnceEverywhere, WritesCountEverywhere};
ghost use Rattle.sds_worldlaws.specs.Progress.{RepliesAnswerInOrder, TakenRepliesCount};
ghost use Rattle.sds_worldlaws.specs.Pushes.{PullsAcknowledge, PushesAcknowledge};
ghost use Rattle.sds_worldlaws.specs.Stepping.{WorldsStayInStep};
ghost use Rattle.sds_worldlaws.specs.Waiting.{MessagesBeginWaiting};
ghost use Rattle.sds_worldlaws.specs.Written.{MessagesStayWritten};

/// After any list of events the writes that each node made of each writer are numbered 1, 2, 3 and
/// so on: none is lost, and none is made twice.
pub fn writes_count_everywhere()
    ensures count { WritesCountEverywhere }
{}

/// Under a sound configuration, after any list of events, each change that a node routed stands in
/// exactly one batch to each peer that the routers named for it at that run, and in no other.
pub fn changes_are_routed_once_everywhere()
    ensures once { RoutedOnceEverywhere }
{}

/// Nothing is lost and nothing is applied twice. Under a sound configuration, after any list of
/// events, whatever was lost, repeated, reordered or met a fault: what each node loaded of another
/// in a channel are the first batches that the other made for it, each once and in their order,
/// with the rows as the transforms give them; no more is acknowledged than is loaded; every part of
/// every message lies in what was made and begins at most after what is loaded; every
/// acknowledgement tells of a batch that is loaded, and every error of one that was made; and a
/// lane's error is at the batch after what is loaded. Each new node has an id of its own.
pub fn worlds_stay_in_step()
    ensures step { WorldsStayInStep }
{}

/// A message that was written when it was sent is what its sender would write of the same batches
/// at any later time: delivering the text, whose batches go by their numbers, loads what stands at
/// the message's places.
pub fn messages_stay_written()
    ensures stay { MessagesStayWritten }
{}

/// A reply that has an acknowledgement for each batch of its message names them in the message's
/// order; and a reply that is taken acknowledges each batch that it tells as loaded.
pub fn replies_count()
    ensures order { RepliesAnswerInOrder }
    ensures count { TakenRepliesCount }
{}

/// A push or a pull that goes well leaves what it carried acknowledged. Under a sound
/// configuration, after any list of events in which each new node has an id of its own: if it
/// reports that its message was sent, that the receiver answered each of its batches without an
/// error, and that the sender took that reply, then every batch of the message is acknowledged at
/// the sender after it.
pub fn pushes_acknowledge()
    ensures push { PushesAcknowledge }
    ensures pull { PullsAcknowledge }
{}

/// A message begins with what isn't acknowledged. After any list of events: a message that is sent,
/// by itself or in a push or a pull, begins in each of its channels with the first batch that its
/// sender doesn't hold as acknowledged. All batches of the channel to that peer before it are
/// acknowledged, none from it on is, and where one waits there the message holds at least one.
pub fn messages_begin_waiting()
    ensures begin { MessagesBeginWaiting }
{}
