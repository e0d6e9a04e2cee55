// The rule on return.
// A routine is lent slices of the tables that it works on: what it is not lent is known to stay, with no clause.
ghost use Rattle.std.specs.Prelude.{◌≤◌, List, [], ◌∷◌, if◌then◌else◌};
ghost use Rattle.script.specs.Tree.{Expr, OptionalExpr, Stmts, return_of};
ghost use Rattle.records.specs.declared.record.DeclRecord.{DeclRecord as DeclEntry};
ghost use Rattle.records.specs.Embedding.{expr_row, optional_row, stmts_row};
ghost use Rattle.records.specs.Heap.{expr_at, stmt_at};
ghost use Rattle.records.specs.Readable.{tables};
ghost use Rattle.records.specs.Rows.{end};
ghost use Rattle.rules.specs.Merging.{push_new_expression_stmt_to_result};
ghost use Rattle.rules.specs.Returns.{drop_undefined_argument, handle_return_statement, merge_leading_into_declaration};
ghost use Rattle.moves.specs.Lent.{Makes, SameSlices};
ghost use Rattle.moves.specs.Moved.{Turns};
ghost use Rattle.joining.specs.Needs.{EnoughFor};
ghost use Rattle.predicates.specs.Held.{holder_of};

use crate::jump::Jump;
use crate::merger::merge_jumps;
use hosts::Host;
use merging::{
    Worked, merge_last_expression_into_sequence, merge_leading_assignments_to_declaration,
    push_new_expression_stmt_to_result,
};
use moves::{Tables, drop_expr_row};
use pool::NOWHERE;
use predicates::Holder;
use records::{DeclRecord, ExprRecord, Pools, StmtRecord};

// The leading assignments of an argument that is there go into the declaration before it.
fn merge_leading_into_declaration(
    exprs: &mut [ExprRecord],
    stmts: &[StmtRecord],
    decls: &mut [DeclRecord],
    pools: &mut Pools,
    value: u32,
    results: u32,
) -> Worked
    ensures { (v : OptionalExpr) (r : Stmts) →
        Turns (tables exprs.old stmts.now decls.old) pools.old
        (tables exprs.new stmts.now decls.new) pools.new
        [] ((expr_at value, optional_row v end) ∷ (stmt_at results, stmts_row r) ∷ [])
        ((expr_at result.target, optional_row (merge_leading_into_declaration v r).target end)
        ∷ (stmt_at result.results, stmts_row (merge_leading_into_declaration v r).results) ∷ []) }
{
    if value == NOWHERE {
        return Worked {
            target: value,
            results,
        };
    }
    merge_leading_assignments_to_declaration(false, exprs, stmts, decls, pools, value, results)
}

// An argument that is undefined: it is dropped if it is harmless, else it becomes a statement.
fn leave_argument<H: Host>(
    host: &H,
    sequences: bool,
    exprs: &mut [ExprRecord],
    stmts: &mut [StmtRecord],
    pools: &mut Pools,
    value: u32,
    results: u32,
) -> u32
    ensures { (ds : List DeclEntry) (e : Expr) (r : Stmts) → 1 ≤ pools.old.exprs.count → 1 ≤ pools.old.stmts.count →
        Turns (tables exprs.old stmts.old ds) pools.old (tables exprs.new stmts.new ds) pools.new
        [] ((expr_at value, expr_row e end) ∷ (stmt_at results, stmts_row r) ∷ [])
        ((stmt_at result, stmts_row (if (H.meaning host.now).harmless e then r else push_new_expression_stmt_to_result sequences e r)) ∷ []) }
{
    if host.is_harmless(exprs, value) {
        drop_expr_row(exprs, pools, value);
        return results;
    }
    push_new_expression_stmt_to_result(sequences, exprs, stmts, pools, value, results)
}

// An argument that is undefined goes; one that is not takes in the expression before it.
fn drop_undefined_argument<H: Host>(
    host: &H,
    sequences: bool,
    exprs: &mut [ExprRecord],
    stmts: &mut [StmtRecord],
    pools: &mut Pools,
    value: u32,
    results: u32,
) -> Worked
    ensures { (ds : List DeclEntry) (v : OptionalExpr) (r : Stmts) → 1 ≤ pools.old.exprs.count → 1 ≤ pools.old.stmts.count →
        Turns (tables exprs.old stmts.old ds) pools.old (tables exprs.new stmts.new ds) pools.new
        [] ((expr_at value, optional_row v end) ∷ (stmt_at results, stmts_row r) ∷ [])
        ((expr_at result.target, optional_row (drop_undefined_argument sequences (H.meaning host.now) v r).target end)
        ∷ (stmt_at result.results, stmts_row (drop_undefined_argument sequences (H.meaning host.now) v r).results) ∷ []) }
{
    if value == NOWHERE {
        return Worked {
            target: value,
            results,
        };
    }
    if !host.is_undefined(exprs, value) {
        return merge_last_expression_into_sequence(sequences, exprs, stmts, pools, value, results);
    }
    let left = leave_argument(host, sequences, exprs, stmts, pools, value, results);
    Worked {
        target: NOWHERE,
        results: left,
    }
}

// A return with its argument, if it has one, onto the results.
pub fn handle_return_statement<H: Host>(
    host: &H,
    sequences: bool,
    holder: Holder,
    tables: &mut Tables,
    at: u32,
    value: u32,
    results: u32,
) -> u32
    ensures lent { SameSlices tables.old tables.new }
    ensures makes { (v : OptionalExpr) (r : Stmts) → EnoughFor (return_of v) r tables.old.pools →
        Makes tables.old tables.new
        (stmt_at at ∷ []) ((expr_at value, optional_row v end) ∷ (stmt_at results, stmts_row r) ∷ [])
        ((stmt_at result, stmts_row (handle_return_statement sequences (H.meaning host.now) (holder_of holder) v r)) ∷ []) }
{
    // A field cannot be lent to read beside one that is lent to write, so the statements are borrowed by themselves.
    let stmts = &mut *tables.stmts;
    let merged = merge_leading_into_declaration(
        tables.exprs,
        stmts,
        tables.decls,
        &mut tables.pools,
        value,
        results,
    );
    let worked = drop_undefined_argument(
        host,
        sequences,
        tables.exprs,
        tables.stmts,
        &mut tables.pools,
        merged.target,
        merged.results,
    );
    merge_jumps(
        Jump::Return(holder),
        sequences,
        tables.exprs,
        tables.stmts,
        &mut tables.pools,
        at,
        worked.target,
        worked.results,
    )
}
