// The rule on throw.
ghost use Rattle.std.specs.Prelude.{[], ◌∷◌};
ghost use Rattle.script.specs.Tree.{Expr, Stmts, throw};
ghost use Rattle.records.specs.Embedding.{expr_row, stmts_row};
ghost use Rattle.records.specs.Heap.{expr_at, stmt_at};
ghost use Rattle.records.specs.Rows.{end};
ghost use Rattle.rules.specs.Throws.{handle_throw_statement};
ghost use Rattle.moves.specs.Lent.{Makes, SameSlices};
ghost use Rattle.joining.specs.Needs.{EnoughFor};

use crate::jump::Jump;
use crate::merger::merge_jumps;
use merging::{merge_last_expression_into_sequence, merge_leading_assignments_to_declaration};
use moves::Tables;

// A throw with its argument, onto the results.
pub fn handle_throw_statement(
    sequences: bool,
    tables: &mut Tables,
    at: u32,
    value: u32,
    results: u32,
) -> u32
    ensures lent { SameSlices tables.old tables.new }
    ensures makes { (e : Expr) (r : Stmts) → EnoughFor (throw e) r tables.old.pools →
        Makes tables.old tables.new
        (stmt_at at ∷ []) ((expr_at value, expr_row e end) ∷ (stmt_at results, stmts_row r) ∷ [])
        ((stmt_at result, stmts_row (handle_throw_statement sequences e r)) ∷ []) }
{
    let joined = merge_last_expression_into_sequence(
        sequences,
        tables.exprs,
        tables.stmts,
        &mut tables.pools,
        value,
        results,
    );
    // A field cannot be lent to read beside one that is lent to write, so the statements are borrowed by themselves.
    let stmts = &mut *tables.stmts;
    let worked = merge_leading_assignments_to_declaration(
        false,
        tables.exprs,
        stmts,
        tables.decls,
        &mut tables.pools,
        joined.target,
        joined.results,
    );
    merge_jumps(
        Jump::Throw,
        sequences,
        tables.exprs,
        tables.stmts,
        &mut tables.pools,
        at,
        worked.target,
        worked.results,
    )
}
