//! Laws of every history of a node.
ghost use Rattle.sds_nodelaws.specs.Acknowledged.{AckedComeFirst};
ghost use Rattle.sds_nodelaws.specs.Counters.{CountersNeverFall, MarkStaysWithin};
ghost use Rattle.sds_nodelaws.specs.Counters.{ChangesCountOn, BatchesCountOn};
ghost use Rattle.sds_nodelaws.specs.Documents.{DocumentsStay};
ghost use Rattle.sds_nodelaws.specs.Ending.{AcceptedEndWell, TablesAreSteps};
ghost use Rattle.sds_nodelaws.specs.Routing.{RoutedInOneBatch};
ghost use Rattle.sds_nodelaws.specs.Sound.{CallsKeepStatesSound, NodesStaySound};
ghost use Rattle.sds_nodelaws.specs.Splicing.{CallsStepOn, HistoriesSplice};
ghost use Rattle.sds_nodelaws.specs.Standings.{OkIsFinal};
ghost use Rattle.sds_nodelaws.specs.Writers.{WritersCount, LastIsKept};

/// No counter of a node ever falls: not that of its acts, changes, batches or transactions, nor the
/// last change that was routed.
pub fn counters_never_fall()
    ensures fall { CountersNeverFall }
{}

/// No change is routed that wasn't captured.
pub fn mark_stays_within()
    ensures within { MarkStaysWithin }
{}

/// The changes that a node captures are numbered on without a gap, and its counter is the last of
/// these numbers.
pub fn changes_count_on()
    ensures count { ChangesCountOn }
{}

/// The batches that a node makes are numbered on without a gap, so their ids rise, and its counter
/// is the last of these ids.
pub fn batches_count_on()
    ensures count { BatchesCountOn }
{}

/// A batch that was acknowledged stays so: no later act changes anything of it.
pub fn ok_is_final()
    ensures stays { OkIsFinal }
{}

/// Whatever is asked of a node that began, the writes that it made of each writer are numbered 1,
/// 2, 3 and so on, each once; and what it keeps of a writer is the number of its last write.
pub fn writers_count()
    ensures count { WritersCount }
    ensures last { LastIsKept }
{}

/// Each change that a routing run took stands in exactly one batch to each peer that the routers
/// named for it at that run, by the tables and peers as they were then, and in no other batch.
pub fn changes_are_routed_once()
    ensures once { RoutedInOneBatch }
{}

/// What a node has after a call follows from what it had before and the call's act alone; and a
/// node that is opened again with what it has goes on as if it had never been closed.
pub fn histories_splice()
    ensures step { CallsStepOn }
    ensures splice { HistoriesSplice }
{}

/// A node's tables are those that it began with, with the steps of its accepted writes and of its
/// loaded batches made one after another, in the order of its commits; and no row of an accepted
/// write or of a loaded batch broke a rule.
pub fn tables_follow_steps()
    ensures step { TablesAreSteps }
    ensures well { AcceptedEndWell }
{}

/// Of the batches that a node made for a peer in a channel the first are acknowledged, and the
/// others wait: a message begins with the first that isn't acknowledged.
pub fn acknowledged_come_first()
    ensures first { AckedComeFirst }
{}

/// Under a sound configuration the batch at a place stays there, and its document is the same
/// whenever it is asked for, whatever the node did in between.
pub fn documents_stay()
    ensures stay { DocumentsStay }
{}

/// What a node has stays sound. Under a sound configuration a call whose caller keeps to its part
/// leaves a sound state sound: the rows are tables whose references hold, each change and each
/// batch is counted and kept, what waits to be routed is there, acknowledged batches come first in
/// their lane, each opening went to a peer of its own, and no counter is past its end. So a node
/// that began with an identity that fits the configuration is sound after whatever it was asked.
pub fn calls_keep_states_sound()
    ensures call { CallsKeepStatesSound }
    ensures node { NodesStaySound }
{}
