// What is proved of running. Each function's contract is the law; calling it does nothing.
ghost use Rattle.run.specs.Laws.{CutOnlyWhenSpent, EmptyRecordChangesNothing, EventsOnlyGrow, ExamplesHold};
ghost use Rattle.run.specs.Laws.{LoopBoundIsTheTurns, MoreTurnsChangeNothing, RecordsForAllLists, SettingsStayInSight};
ghost use Rattle.run.specs.Laws.{StrictEqualityIsEquality, TurnsNeverGrow, ValuesFit};

// The worked examples do what they tell.
pub fn examples_hold()
    ensures { ExamplesHold }
{}

// The events before an expression or a statement are a part of those after it, the older part.
pub fn events_only_grow()
    ensures { EventsOnlyGrow }
{}

// No more turns are spent than were given.
pub fn turns_never_grow()
    ensures { TurnsNeverGrow }
{}

// A run is cut only where no turn is left.
pub fn cut_only_when_spent()
    ensures { CutOnlyWhenSpent }
{}

// A loop is bounded by the turns and by nothing else.
pub fn loop_bound_is_the_turns()
    ensures { LoopBoundIsTheTurns }
{}

// A run that is not cut is the same with more turns.
pub fn more_turns_change_nothing()
    ensures { MoreTurnsChangeNothing }
{}

// What a world sets is in sight, initialised and not const, and all else stays.
pub fn settings_stay_in_sight()
    ensures { SettingsStayInSight }
{}

// A list that declares nothing does the same with a record of its own as without.
pub fn empty_record_changes_nothing()
    ensures { EmptyRecordChangesNothing }
{}

// A run that enters a record for every list is the same run.
pub fn records_for_all_lists()
    ensures { RecordsForAllLists }
{}

// Strict equality tells exactly the values that are the same.
pub fn strict_equality_is_equality()
    ensures { StrictEqualityIsEquality }
{}

// Where the numbers of the body and of the world's answers have 32 bits, all do.
pub fn values_fit()
    ensures { ValuesFit }
{}
