// Expression statements.
// A routine is lent slices of the tables that it works on: what it is not lent is known to stay, with no clause.
ghost use Rattle.std.specs.Prelude.{List, [], ◌∷◌};
ghost use Rattle.script.specs.Tree.{Expr, OptionalExpr, Stmts, expression};
ghost use Rattle.records.specs.declared.record.DeclRecord.{DeclRecord as DeclEntry};
ghost use Rattle.records.specs.declared.record.ExprRecord.{ExprRecord as ExprEntry};
ghost use Rattle.records.specs.Embedding.{expr_row, optional_row, stmts_row};
ghost use Rattle.records.specs.Heap.{expr_at, stmt_at};
ghost use Rattle.records.specs.Readable.{tables};
ghost use Rattle.records.specs.Rows.{end};
ghost use Rattle.rules.specs.Merging.{handle_expression_statement, push_optional_expression};
ghost use Rattle.moves.specs.Lent.{Makes, SameSlices};
ghost use Rattle.moves.specs.Moved.{Turns};
ghost use Rattle.joining.specs.Needs.{EnoughFor};

use crate::last::merge_last_expression_into_sequence;
use crate::leading::merge_leading_assignments_to_declaration;
use moves::{Tables, give, set};
use pool::NOWHERE;
use records::{Pools, StmtRecord};
use script::StatementKind;

// Puts the target onto the results as a statement; with none the statement's record is given back.
fn push_worked(
    stmts: &mut [StmtRecord],
    pools: &mut Pools,
    at: u32,
    target: u32,
    results: u32,
) -> u32
    ensures { (es : List ExprEntry) (ds : List DeclEntry) (v : OptionalExpr) (r : Stmts) →
        Turns (tables es stmts.old ds) pools.old (tables es stmts.new ds) pools.new
        (stmt_at at ∷ []) ((expr_at target, optional_row v end) ∷ (stmt_at results, stmts_row r) ∷ [])
        ((stmt_at result, stmts_row (push_optional_expression v r)) ∷ []) }
{
    if target == NOWHERE {
        give(&mut pools.stmts, stmts, at);
        return results;
    }
    set(
        stmts,
        at,
        StmtRecord {
            kind: StatementKind::Expression,
            exprs: target,
            stmts: NOWHERE,
            decls: NOWHERE,
            next: results,
        },
    );
    at
}

// Puts an expression statement onto the results: joined to the newest, and its leading assignments merged into a declaration.
pub fn handle_expression_statement(
    sequences: bool,
    tables: &mut Tables,
    at: u32,
    expr: u32,
    results: u32,
) -> u32
    ensures lent { SameSlices tables.old tables.new }
    ensures makes { (e : Expr) (r : Stmts) → EnoughFor (expression e) r tables.old.pools →
        Makes tables.old tables.new
        (stmt_at at ∷ []) ((expr_at expr, expr_row e end) ∷ (stmt_at results, stmts_row r) ∷ [])
        ((stmt_at result, stmts_row (handle_expression_statement sequences e r)) ∷ []) }
{
    let merged = merge_last_expression_into_sequence(
        sequences,
        tables.exprs,
        tables.stmts,
        &mut tables.pools,
        expr,
        results,
    );
    // A field cannot be lent to read beside one that is lent to write, so the statements are borrowed by themselves.
    let stmts = &mut *tables.stmts;
    let worked = merge_leading_assignments_to_declaration(
        true,
        tables.exprs,
        stmts,
        tables.decls,
        &mut tables.pools,
        merged.target,
        merged.results,
    );
    push_worked(
        tables.stmts,
        &mut tables.pools,
        at,
        worked.target,
        worked.results,
    )
}
