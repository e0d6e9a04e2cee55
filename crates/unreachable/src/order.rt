// The results of a list, from the newest first to source order.
// A routine is lent slices of the tables that it works on: what it is not lent is known to stay, with no clause.
ghost use Rattle.std.specs.Prelude.{List, [], ◌∷◌};
ghost use Rattle.script.specs.Tree.{Stmts, no_stmts};
ghost use Rattle.records.specs.declared.record.DeclRecord.{DeclRecord as DeclEntry};
ghost use Rattle.records.specs.declared.record.ExprRecord.{ExprRecord as ExprEntry};
ghost use Rattle.records.specs.declared.record.Pools.{Pools as Spare};
ghost use Rattle.records.specs.Embedding.{stmts_row};
ghost use Rattle.records.specs.Heap.{stmt_at};
ghost use Rattle.records.specs.Readable.{tables};
ghost use Rattle.rules.specs.Jumps.{in_source_order};
ghost use Rattle.moves.specs.Moved.{Turns};

use moves::push_all;
use pool::NOWHERE;
use records::StmtRecord;

// Turns the results round, in place.
pub fn in_source_order(stmts: &mut [StmtRecord], results: u32) -> u32
    ensures { (es : List ExprEntry) (ds : List DeclEntry) (p : Spare) (rs : Stmts) →
        Turns (tables es stmts.old ds) p (tables es stmts.new ds) p
        [] ((stmt_at results, stmts_row rs) ∷ []) ((stmt_at result, stmts_row (in_source_order rs no_stmts)) ∷ []) }
{
    push_all(stmts, results, NOWHERE)
}
