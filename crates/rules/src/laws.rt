// What is proved of fusing. Each function's contract is the law; calling it does nothing.
ghost use Rattle.rules.specs.Laws.{AlteredIsBytesDiffer, AlteredIsLighter, DepthIsEnough, DroppedLetsAlterRuns};
ghost use Rattle.rules.specs.Laws.{FusedRecordsAreBounded, FusingKeepsNames, FusingKeepsRuns, FusingKeepsTheBudget};
ghost use Rattle.rules.specs.Laws.{FusingKeepsTheRules, FusingLightens, MarkedCasesHold, MarkedCasesOpen, NoNeighbours};
ghost use Rattle.rules.specs.Laws.{OpenedDepthIsEnough, RecordsSuffice, WeightSuffices, WrongReadingsAlterRuns};
ghost use Rattle.rules.specs.Limit.{StopsAt500};

// A fused body has the same events in the same order and the same completion,
// for every lawful host, each option on or off, every world and every number of turns.
pub fn fusing_keeps_runs()
    ensures { FusingKeepsRuns }
{}

// A list is worked as deep as it has jumps: more depth gives the same.
pub fn depth_is_enough()
    ensures { DepthIsEnough }
{}

// More depth opens as many blocks, too.
pub fn opened_depth_is_enough()
    ensures { OpenedDepthIsEnough }
{}

// Each list keeps its let and const names in their order, and its var names as a set.
pub fn fusing_keeps_names()
    ensures { FusingKeepsNames }
{}

// A body that breaks no rule of feeding is fused to one that breaks none.
pub fn fusing_keeps_the_rules()
    ensures { FusingKeepsTheRules }
{}

// With sequences on, a body whose fusing opens no block is fused to one
// with no two expression statements side by side, in any of its lists.
pub fn no_neighbours()
    ensures { NoNeighbours }
{}

// A body stays as it is or becomes lighter, whatever the host and the options.
pub fn fusing_lightens()
    ensures { FusingLightens }
{}

// A body is altered just where one of two measures is another one: a sum over its records, and how many pairs of a var and a let or const behind it.
pub fn altered_is_lighter()
    ensures { AlteredIsLighter }
{}

// For a lawful host, a body that breaks no rule of feeding is altered just where it is written with other bytes.
pub fn altered_is_bytes_differ()
    ensures { AlteredIsBytesDiffer }
{}

// Records in use and records that may still have to be taken, counted together, never grow.
pub fn fusing_keeps_the_budget()
    ensures { FusingKeepsTheBudget }
{}

// Of a body of S statements and cases, at most 2 S expressions more, S statements more, no more declarators.
pub fn fused_records_are_bounded()
    ensures { FusedRecordsAreBounded }
{}

// With spares of the weight of a body, every take of fusing finds a spare record, and none is lost.
pub fn weight_suffices()
    ensures { WeightSuffices }
{}

// With 10 spare expressions, 4 spare statements and 1 spare declarator for each statement and case of a body, no take fails.
pub fn records_suffice()
    ensures { RecordsSuffice }
{}

// The marked bodies are fused to what is written beside them.
pub fn marked_cases_hold()
    ensures { MarkedCasesHold }
{}

// None of the marked bodies opens a block; one more, which is a block, is opened.
pub fn marked_cases_open()
    ensures { MarkedCasesOpen }
{}

// A second argument with 499 conditionals in a row takes in the first one, one with 500 does not: of returns and of throws.
pub fn mergers_stop_at_500()
    ensures { StopsAt500 }
{}

// The folded test not turned, a tail that holds a let folded, a call moved into a let: each alters a run.
pub fn wrong_readings_alter_runs()
    ensures { WrongReadingsAlterRuns }
{}

// A let behind a jump dropped, in three bodies: each alters a run.
pub fn dropped_lets_alter_runs()
    ensures { DroppedLetsAlterRuns }
{}
