// What is proved of reading, judging and writing together. Each function's contract is the law; calling it does nothing.
ghost use Rattle.script.specs.Laws.{AcceptedBytesSpell, TakenKeepsSound, WrittenIsTaken, WrittenSpells};

// The bytes that a draft took are, by the plain reading, what its model holds.
pub fn accepted_bytes_spell()
    ensures { AcceptedBytesSpell }
{}

// A byte that is taken keeps every rule of the trees.
pub fn taken_bytes_keep_the_rules()
    ensures { TakenKeepsSound }
{}

// The bytes of a body are taken, every one, by a fresh draft with records enough, and make that body.
pub fn written_bytes_are_taken()
    ensures { WrittenIsTaken }
{}

// The plain reading of a body's bytes is that body.
pub fn written_bytes_spell_the_body()
    ensures { WrittenSpells }
{}
