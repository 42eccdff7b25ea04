//! Worked cases of the rules, each computed from the definitions.
ghost use Rattle.sds_trade.specs.worked.Batched.{BatchesAreKnown, RowsAreNumbered, InsertsNameKeys, ColumnsInAnyOrder, BatchesAreCaptured, PricesAreAdded};
ghost use Rattle.sds_trade.specs.worked.Capturing.{GroupsCapture, EventsCapture, ChangesAreNumbered};
ghost use Rattle.sds_trade.specs.worked.Columns.{Copies, Substrings, Lefts, Maps, OfNull};
ghost use Rattle.sds_trade.specs.worked.Cutting.{WholeTransactions, FullBatches, EachTransaction, NothingIsCut, PlacesAndCounts};
ghost use Rattle.sds_trade.specs.worked.Detecting.{ByKey, ByOld, ByChanged, ByVersion};
ghost use Rattle.sds_trade.specs.worked.Extracting.{ChangesAreWritten, TransformsAreMeant, OthersAreNot, DeletesAreNotAdded};
ghost use Rattle.sds_trade.specs.worked.Falling.{InsertsStand, UpdatesStand, DeletesStand, NewerVersionWins, VersionIsNeeded};
ghost use Rattle.sds_trade.specs.worked.Keys.{ListedKeyIsOnce, SpecifiedHasItsKeys, KeysAreLookedUp, KeysAreOld, EventsTakePart};
ghost use Rattle.sds_trade.specs.worked.Limits.{FullRefuses, NearlyFullTakes, CaptureIsFull, UncapturedIsTaken};
ghost use Rattle.sds_trade.specs.worked.Loading.{CountIsAdded, SumIsTooGreat, LessIsAdded, OldIsNeeded, ChannelIsUnknown, TextsComeFirst, ParentIsMissing};
ghost use Rattle.sds_trade.specs.worked.Naming.{MovesToNew, MovesFromOld, DeleteLooksBack, InsertHasNoOld, WordsAreApart, LookupDecides, ChoiceDecides};
ghost use Rattle.sds_trade.specs.worked.Operands.{WordsAreTold, DefaultNamesAll, LookupsLookRight, ChoicesByNode};
ghost use Rattle.sds_trade.specs.worked.Peers.{TriggersTell, GroupsTell, ExpressionsTell};
ghost use Rattle.sds_trade.specs.worked.Policies.{SpecifiedMakesItsColumns, AbsentOldIsTheKey, ImpliedKeepsPlaces, KeysRemain, DeletesBecome};
ghost use Rattle.sds_trade.specs.worked.References.{OthersMayGo, TablesAreApart, MissingIsMissing, SoldMayChange};
ghost use Rattle.sds_trade.specs.worked.Resolving.{RowIsSkipped, BatchIsIgnored, ManualIsRefused, TieIsSkipped, NewerIsApplied};
ghost use Rattle.sds_trade.specs.worked.Routing.{OwnGoesToAll, NoPingBack, PingBack, NamedOnce, DisabledNamesNone, NobodyIsNamed, ChannelsGoInOrder, LanesAreApart};
ghost use Rattle.sds_trade.specs.worked.Texts.{KeysAreNamed, InsertsNameTheKey, ColumnsAreNamed, TextsAreRead};
ghost use Rattle.sds_trade.specs.worked.Writes.{SecondKey, LostUpdate, SaleOfNothing, DeleteOfSold, SoldKeepsKey, KeyChanges, NullName, BadKey, ShortRow, NoTable, NullKey, SecondRow, FirstOfTwo, MissingGivesNull, MissingTakesKey, KeyBecomesNull};

/// Batches of transactions of two, three and one changes, by each algorithm; and of no change.
pub fn batches_end_by_algorithm()
    ensures whole { WholeTransactions }
    ensures full { FullBatches }
    ensures each { EachTransaction }
    ensures nothing { NothingIsCut }
    ensures places { PlacesAndCounts }
{}

/// What `substr`, `left` and `valueMap` make of a text, and each function of null.
pub fn columns_are_made()
    ensures copy { Copies }
    ensures substr { Substrings }
    ensures left { Lefts }
    ensures map { Maps }
    ensures null { OfNull }
{}

/// Own writes that a key or a reference refuses, each by its rule; and an item's new key.
pub fn writes_break_keys_and_references()
    ensures second { SecondKey }
    ensures lost { LostUpdate }
    ensures parent { SaleOfNothing }
    ensures children { DeleteOfSold }
    ensures kept { SoldKeepsKey }
    ensures moved { KeyChanges }
{}

/// Own writes whose texts are refused, each by its rule.
pub fn writes_break_rules_on_texts()
    ensures null { NullName }
    ensures bad { BadKey }
    ensures short { ShortRow }
    ensures table { NoTable }
    ensures key { NullKey }
{}

/// The first row that breaks a rule is answered, by the first rule that it breaks; an update that
/// names no row is judged by what it gives.
pub fn first_rule_answers()
    ensures row { SecondRow }
    ensures rule { FirstOfTwo }
    ensures gives_null { MissingGivesNull }
    ensures takes_key { MissingTakesKey }
    ensures null_key { KeyBecomesNull }
{}

/// A node that has all the rows it may have takes no more, and where too many changes wait only
/// what isn't captured.
pub fn limits_refuse()
    ensures full { FullRefuses }
    ensures nearly { NearlyFullTakes }
    ensures capture { CaptureIsFull }
    ensures uncaptured { UncapturedIsTaken }
{}

/// Whom the tests of a `column` router name, for each event.
pub fn tests_name_stores()
    ensures new { MovesToNew }
    ensures old { MovesFromOld }
    ensures delete { DeleteLooksBack }
    ensures insert { InsertHasNoOld }
    ensures words { WordsAreApart }
{}

/// A row of another table decides whom a change is for, as it stands when the change is
/// routed.
pub fn rows_name_stores()
    ensures lookup { LookupDecides }
    ensures choice { ChoiceDecides }
{}

/// The batches that a routing run makes of a change, in three tiers.
pub fn batches_go_to_peers()
    ensures own { OwnGoesToAll }
    ensures brought { NoPingBack }
    ensures back { PingBack }
    ensures once { NamedOnce }
    ensures disabled { DisabledNamesNone }
    ensures nobody { NobodyIsNamed }
{}

/// Counts that are added to those that stand.
pub fn counts_are_added()
    ensures added { CountIsAdded }
    ensures great { SumIsTooGreat }
    ensures less { LessIsAdded }
    ensures old { OldIsNeeded }
{}

/// Batches that are refused, by their channel or by a row.
pub fn batches_are_refused()
    ensures channel { ChannelIsUnknown }
    ensures texts { TextsComeFirst }
    ensures parent { ParentIsMissing }
{}

/// Conflicts, by each resolution.
pub fn conflicts_are_resolved()
    ensures row { RowIsSkipped }
    ensures batch { BatchIsIgnored }
    ensures manual { ManualIsRefused }
    ensures tie { TieIsSkipped }
    ensures newer { NewerIsApplied }
{}

/// Rows as texts, and the rule that each breaks.
pub fn texts_are_judged()
    ensures keys { KeysAreNamed }
    ensures inserts { InsertsNameTheKey }
    ensures columns { ColumnsAreNamed }
    ensures values { TextsAreRead }
{}

/// Which steps are captured, and the changes that they become.
pub fn steps_are_captured()
    ensures groups { GroupsCapture }
    ensures events { EventsCapture }
    ensures numbers { ChangesAreNumbered }
{}

/// Batches of several channels and peers.
pub fn channels_go_in_order()
    ensures order { ChannelsGoInOrder }
    ensures lanes { LanesAreApart }
{}

/// What transforms make of rows, by their policies and delete actions.
pub fn rows_are_transformed()
    ensures specified { SpecifiedMakesItsColumns }
    ensures absent { AbsentOldIsTheKey }
    ensures implied { ImpliedKeepsPlaces }
    ensures keys { KeysRemain }
    ensures deletes { DeletesBecome }
{}

/// What is a conflict, by each detection.
pub fn conflicts_are_seen()
    ensures key { ByKey }
    ensures old { ByOld }
    ensures changed { ByChanged }
    ensures version { ByVersion }
{}

/// What is done with a row, by the tables, and where newer versions win.
pub fn rows_fall_back()
    ensures inserts { InsertsStand }
    ensures updates { UpdatesStand }
    ensures deletes { DeletesStand }
    ensures newer { NewerVersionWins }
    ensures needed { VersionIsNeeded }
{}

/// Own writes that take rows away, where others refer to some of them.
pub fn rows_are_taken_away()
    ensures others { OthersMayGo }
    ensures tables { TablesAreApart }
    ensures missing { MissingIsMissing }
    ensures sold { SoldMayChange }
{}

/// What the tests, lookups and choices of routers compare.
pub fn operands_are_compared()
    ensures words { WordsAreTold }
    ensures default { DefaultNamesAll }
    ensures lookups { LookupsLookRight }
    ensures choices { ChoicesByNode }
{}

/// Which peers a change is for, by trigger, group and node.
pub fn peers_are_told()
    ensures triggers { TriggersTell }
    ensures groups { GroupsTell }
    ensures expressions { ExpressionsTell }
{}

/// Changes as rows of batches, and which transforms are for them.
pub fn changes_are_written()
    ensures written { ChangesAreWritten }
    ensures meant { TransformsAreMeant }
    ensures others { OthersAreNot }
    ensures deletes { DeletesAreNotAdded }
{}

/// The keys of rows that transforms make, and events at which columns take part.
pub fn keys_are_made()
    ensures once { ListedKeyIsOnce }
    ensures specified { SpecifiedHasItsKeys }
    ensures looked_up { KeysAreLookedUp }
    ensures old { KeysAreOld }
    ensures events { EventsTakePart }
{}

/// Batches as a whole: their senders, settings, rows' numbers and keys, and what is captured.
pub fn batches_are_prepared()
    ensures known { BatchesAreKnown }
    ensures numbers { RowsAreNumbered }
    ensures keys { InsertsNameKeys }
    ensures order { ColumnsInAnyOrder }
    ensures captured { BatchesAreCaptured }
    ensures prices { PricesAreAdded }
{}
