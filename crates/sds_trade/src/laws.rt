//! The laws of the rules.
ghost use Rattle.sds_trade.specs.laws.Captured.{NumbersAreConsecutive, UncapturedUsesNoNumber};
ghost use Rattle.sds_trade.specs.laws.Cuts.{ChangesHaveOneCut, CutIsACut};
ghost use Rattle.sds_trade.specs.laws.Named.{PeersAreNamedOnce};
ghost use Rattle.sds_trade.specs.laws.Rules.{FirstStepRuleAnswers, AnsweredStepRuleIsBroken, FirstTextRuleAnswers, AnsweredTextRuleIsBroken, TextRulesComeFirst, FirstUnseenRuleAnswers, CaptureComesLast, MissingOldComesFirst};
ghost use Rattle.sds_trade.specs.laws.Runs.{BatchesGoByStep, BatchesKeepTables, IgnoredBatchLeavesTables, RefusedBatchLeavesTables, RefusedWriteLeavesTables, WritesGoByStep, WritesKeepTables};
ghost use Rattle.sds_trade.specs.laws.Tables.{AscendingKeysAreApart, StepsKeepOrder, StepsKeepReferences};
ghost use Rattle.sds_trade.specs.laws.Transforms.{PlainChangesAreExtracted, PlainRowsAreShaped};

/// After every step the rows ascend by table and key, and so no two rows of one table have one key.
pub fn keys_stay_apart()
    ensures order { StepsKeepOrder }
    ensures apart { AscendingKeysAreApart }
{}

/// After every step that breaks no rule each reference is the key of a row that stands; and where
/// the rows ascend and references hold, they do so after each write and batch that is accepted.
pub fn references_hold()
    ensures step { StepsKeepReferences }
    ensures write { WritesKeepTables }
    ensures batch { BatchesKeepTables }
{}

/// The tables after an accepted write or batch are those that its steps make, one after another.
pub fn tables_go_by_step()
    ensures write { WritesGoByStep }
    ensures batch { BatchesGoByStep }
{}

/// A row that breaks two rules is answered by the one of the lower number, which it does break.
pub fn first_rules_answer()
    ensures step { FirstStepRuleAnswers }
    ensures step_broken { AnsweredStepRuleIsBroken }
    ensures text { FirstTextRuleAnswers }
    ensures text_broken { AnsweredTextRuleIsBroken }
{}

/// The rules on texts come before those on steps, those of an update that names no row in their
/// order, and last that too many changes wait; a missing old value comes before every resolution.
pub fn rules_come_in_order()
    ensures texts { TextRulesComeFirst }
    ensures unseen { FirstUnseenRuleAnswers }
    ensures capture { CaptureComesLast }
    ensures old { MissingOldComesFirst }
{}

/// A refused write, a refused batch and an ignored batch leave the tables as they were.
pub fn refusals_leave_tables()
    ensures write { RefusedWriteLeavesTables }
    ensures batch { RefusedBatchLeavesTables }
    ensures ignored { IgnoredBatchLeavesTables }
{}

/// The changes of a transaction have consecutive numbers, and a step that isn't captured uses none.
pub fn captured_changes_are_numbered()
    ensures none { UncapturedUsesNoNumber }
    ensures consecutive { NumbersAreConsecutive }
{}

/// A change names each peer at most once.
pub fn peers_are_named_once()
    ensures { PeersAreNamedOnce }
{}

/// Where no transform is for it, a row is written and loaded as it is.
pub fn plain_rows_pass()
    ensures extracted { PlainChangesAreExtracted }
    ensures shaped { PlainRowsAreShaped }
{}

/// By each algorithm the pieces that changes are cut into join to the changes and are a cut of
/// them, and there is no other cut.
pub fn changes_are_cut_once()
    ensures cut { CutIsACut }
    ensures only { ChangesHaveOneCut }
{}
