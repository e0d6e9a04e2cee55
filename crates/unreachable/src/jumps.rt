// A jump at the end of a list.
// A routine is lent slices of the tables that it works on: what it is not lent is known to stay, with no clause.
ghost use Rattle.std.specs.Prelude.{List, [], ◌∷◌};
ghost use Rattle.script.specs.Tree.{Stmts};
ghost use Rattle.records.specs.declared.record.DeclRecord.{DeclRecord as DeclEntry};
ghost use Rattle.records.specs.declared.record.ExprRecord.{ExprRecord as ExprEntry};
ghost use Rattle.records.specs.Embedding.{stmts_row};
ghost use Rattle.records.specs.Heap.{stmt_at};
ghost use Rattle.records.specs.Readable.{tables};
ghost use Rattle.rules.specs.Jumps.{drop_last_jump};
ghost use Rattle.moves.specs.Moved.{Turns};
ghost use Rattle.predicates.specs.Held.{holder_of};

use moves::{give, record_at};
use pool::NOWHERE;
use predicates::{Holder, can_remove_termination_statement};
use records::{Pools, StmtRecord};

// Takes the newest result away if it is a jump that goes where the list's end leads anyway.
pub fn drop_last_jump(
    holder: Holder,
    stmts: &mut [StmtRecord],
    pools: &mut Pools,
    results: u32,
) -> u32
    ensures { (es : List ExprEntry) (ds : List DeclEntry) (rs : Stmts) →
        Turns (tables es stmts.old ds) pools.old (tables es stmts.new ds) pools.new
        [] ((stmt_at results, stmts_row rs) ∷ []) ((stmt_at result, stmts_row (drop_last_jump (holder_of holder) rs)) ∷ []) }
{
    if results == NOWHERE || !can_remove_termination_statement(holder, stmts, results) {
        return results;
    }
    let rest = record_at(stmts, results).next;
    give(&mut pools.stmts, stmts, results);
    rest
}
