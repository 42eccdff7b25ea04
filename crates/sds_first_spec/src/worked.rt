ghost use Rattle.std.specs.Prelude.{◌≡◌};
ghost use Rattle.sds_first_spec.specs.One.{one};
ghost use Rattle.sds_first_spec.specs.Screen.{screen_of};
ghost use Rattle.sds_first_spec.specs.TwoNodes.{two_nodes, two_nodes_screen};
ghost use Rattle.sds_first_spec.specs.Worked.{RepeatChangesNothing, RegisterAgainIsNothing, LastNumberIsAgain, EarlierIsOld, SkippedIsGap, KeyTwiceIsRefused, NoRowsIsDone, StoreCapturesNothing, CountersEnd, RoutedIsDone, StoreRoutesNothing, LoadedIsAgain, SentRowIsWhole, StandingRowIsUpdated, StrangerIsRefused, UnknownBatchIsRefused, ErrorAfterOkIsNothing, ErrorEndsOffer, LaterOkTakesBoth, NothingPrintsNothing, EmptyTableIsItsName, TextsAreEscaped, KeysGoByNumber};
ghost use Rattle.sds_first_spec.specs.World.{empty_world};

/// The rules of the trade give the scenario of two nodes the screen that was written down for it beforehand.
pub fn two_nodes_print()
    ensures { screen_of one empty_world two_nodes ≡ two_nodes_screen }
{}

/// A message that comes again changes no node and is answered as it was, and a node that registers again changes nothing.
pub fn repeats_change_nothing()
    ensures message { RepeatChangesNothing }
    ensures register { RegisterAgainIsNothing }
{}

/// A batch that was loaded is answered so, and the next one is loaded by the next act. The rows that a message carries are
/// such as a load takes, and a row at a key that stands is updated where it stands.
pub fn loads_go_by_number()
    ensures batch { LoadedIsAgain }
    ensures whole { SentRowIsWhole }
    ensures row { StandingRowIsUpdated }
{}

/// A writer's last number is answered as it was; 0, an earlier number and one behind a gap are refused, and so is a write
/// whose act would be counted past 2^62.
pub fn writes_go_by_number()
    ensures again { LastNumberIsAgain }
    ensures old { EarlierIsOld }
    ensures gap { SkippedIsGap }
    ensures counters { CountersEnd }
{}

/// Of two rows with one key the second breaks the rule. A write without rows is done with no change, and so is one at the
/// store, which captures nothing and has nothing to route.
pub fn writes_are_judged_by_row()
    ensures key { KeyTwiceIsRefused }
    ensures empty { NoRowsIsDone }
    ensures store { StoreCapturesNothing }
    ensures routed { RoutedIsDone }
    ensures store_routes { StoreRoutesNothing }
{}

/// Acks of an unknown peer and of an unknown batch are refused, and an error of a batch that is loaded is nothing. An error
/// ends the next offer behind its batch, and an ok of a later batch takes the earlier ones.
pub fn acks_are_judged()
    ensures stranger { StrangerIsRefused }
    ensures unknown { UnknownBatchIsRefused }
    ensures loaded { ErrorAfterOkIsNothing }
    ensures error { ErrorEndsOffer }
    ensures later { LaterOkTakesBoth }
{}

/// No event prints nothing, and an empty table its name alone. Quotes and backslashes are escaped, null is nothing, and
/// rows go by the number of their keys.
pub fn screens_of_little()
    ensures nothing { NothingPrintsNothing }
    ensures empty { EmptyTableIsItsName }
    ensures texts { TextsAreEscaped }
    ensures keys { KeysGoByNumber }
{}
