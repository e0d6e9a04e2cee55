// An expression and the newest result, where that is an expression statement.
// A routine is lent slices of the tables that it works on: what it is not lent is known to stay, with no clause.
ghost use Rattle.std.specs.Prelude.{◌≤◌, List, [], ◌∷◌};
ghost use Rattle.script.specs.Tree.{Expr, Stmts};
ghost use Rattle.records.specs.declared.record.DeclRecord.{DeclRecord as DeclEntry};
ghost use Rattle.records.specs.Embedding.{expr_row, optional_row, stmts_row};
ghost use Rattle.records.specs.Heap.{expr_at, stmt_at};
ghost use Rattle.records.specs.Readable.{tables};
ghost use Rattle.records.specs.Rows.{end};
ghost use Rattle.rules.specs.Merging.{merge_last_expression_into_sequence, push_new_expression_stmt_to_result};
ghost use Rattle.moves.specs.Moved.{Turns};

use crate::worked::Worked;
use joining::join_sequence;
use moves::{give, record_at, set, take};
use pool::NOWHERE;
use records::{ExprRecord, Pools, StmtRecord};
use script::StatementKind;

// Takes the newest result off, if it is an expression statement, and puts its expression before the target.
pub fn merge_last_expression_into_sequence(
    sequences: bool,
    exprs: &mut [ExprRecord],
    stmts: &mut [StmtRecord],
    pools: &mut Pools,
    target: u32,
    results: u32,
) -> Worked
    ensures { (ds : List DeclEntry) (e : Expr) (r : Stmts) → 1 ≤ pools.old.exprs.count →
        Turns (tables exprs.old stmts.old ds) pools.old (tables exprs.new stmts.new ds) pools.new
        [] ((expr_at target, expr_row e end) ∷ (stmt_at results, stmts_row r) ∷ [])
        ((expr_at result.target, optional_row (merge_last_expression_into_sequence sequences e r).target end)
        ∷ (stmt_at result.results, stmts_row (merge_last_expression_into_sequence sequences e r).results) ∷ []) }
{
    if !sequences {
        return Worked { target, results };
    }
    let last = record_at(stmts, results);
    let StatementKind::Expression = last.kind else {
        return Worked { target, results };
    };
    give(&mut pools.stmts, stmts, results);
    let target = join_sequence(exprs, pools, last.exprs, target);
    Worked {
        target,
        results: last.next,
    }
}

// Puts an expression statement onto the results, together with the newest of them if that is one too.
pub fn push_new_expression_stmt_to_result(
    sequences: bool,
    exprs: &mut [ExprRecord],
    stmts: &mut [StmtRecord],
    pools: &mut Pools,
    expr: u32,
    results: u32,
) -> u32
    ensures { (ds : List DeclEntry) (e : Expr) (r : Stmts) → 1 ≤ pools.old.exprs.count → 1 ≤ pools.old.stmts.count →
        Turns (tables exprs.old stmts.old ds) pools.old (tables exprs.new stmts.new ds) pools.new
        [] ((expr_at expr, expr_row e end) ∷ (stmt_at results, stmts_row r) ∷ [])
        ((stmt_at result, stmts_row (push_new_expression_stmt_to_result sequences e r)) ∷ []) }
{
    let merged = merge_last_expression_into_sequence(sequences, exprs, stmts, pools, expr, results);
    let at = take(&mut pools.stmts, stmts);
    set(
        stmts,
        at,
        StmtRecord {
            kind: StatementKind::Expression,
            exprs: merged.target,
            stmts: NOWHERE,
            decls: NOWHERE,
            next: merged.results,
        },
    );
    at
}
