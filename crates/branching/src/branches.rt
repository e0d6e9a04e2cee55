// The rows of branches: two in the other order, a record given back for the parts of it.
// A routine is lent slices of the tables that it works on: what it is not lent is known to stay, with no clause.
ghost use Rattle.std.specs.Prelude.{◌≡◌, List, [], ◌∷◌};
ghost use Rattle.pool.specs.declared.Pool.{Pool as Spare};
ghost use Rattle.script.specs.Tree.{Expr, Stmt, expression, not};
ghost use Rattle.records.specs.declared.record.DeclRecord.{DeclRecord as DeclEntry};
ghost use Rattle.records.specs.declared.record.ExprRecord.{ExprRecord as ExprEntry};
ghost use Rattle.records.specs.declared.record.Pools.{Pools};
ghost use Rattle.records.specs.declared.record.StmtRecord.{StmtRecord as StmtEntry};
ghost use Rattle.records.specs.Embedding.{expr_row, stmt_row};
ghost use Rattle.records.specs.Heap.{expr_at, stmt_at};
ghost use Rattle.records.specs.Owned.{Short};
ghost use Rattle.records.specs.Readable.{tables};
ghost use Rattle.records.specs.Rows.{At, Row, end};
ghost use Rattle.rules.specs.Expressions.{not?};
ghost use Rattle.rules.specs.Ifs.{branch?};
ghost use Rattle.moves.specs.Moved.{Turns};
ghost use Rattle.branching.specs.Views.{swaps};

use crate::views::is_if;
use moves::{detach, give, link, record_at};
use pool::{NOWHERE, Pool};
use records::{ExprRecord, StmtRecord};
use script::ExpressionKind;

// Puts two branches in the other order.
pub fn exchange(stmts: &mut [StmtRecord], branches: u32) -> u32
    ensures { (es : List ExprEntry) (ds : List DeclEntry) (p : Pools) (c x : Stmt) →
        Turns (tables es stmts.old ds) p (tables es stmts.new ds) p
        [] ((stmt_at branches, stmt_row c (stmt_row x end)) ∷ []) ((stmt_at result, stmt_row x (stmt_row c end)) ∷ []) }
{
    let other = detach(stmts, branches);
    link(stmts, other, branches);
    other
}

// The expression of an expression statement, whose record is given back.
pub fn open_expression(stmts: &mut [StmtRecord], spares: &mut Pool, at: u32) -> u32
    ensures { (es : List ExprEntry) (ds : List DeclEntry) (a d : Spare) (e : Expr) →
        Turns (tables es stmts.old ds) (record { exprs = a; stmts = spares.old; decls = d })
        (tables es stmts.new ds) (record { exprs = a; stmts = spares.new; decls = d })
        [] ((stmt_at at, stmt_row (expression e) end) ∷ []) ((expr_at result, expr_row e end) ∷ []) }
{
    let stmt = record_at(stmts, at);
    give(spares, stmts, at);
    stmt.exprs
}

// The expression behind a `!`, whose record is given back.
pub fn open_not(exprs: &mut [ExprRecord], spares: &mut Pool, at: u32) -> u32
    ensures { (ss : List StmtEntry) (ds : List DeclEntry) (s d : Spare) (e : Expr) →
        Turns (tables exprs.old ss ds) (record { exprs = spares.old; stmts = s; decls = d })
        (tables exprs.new ss ds) (record { exprs = spares.new; stmts = s; decls = d })
        [] ((expr_at at, expr_row (not e) end) ∷ []) ((expr_at result, expr_row e end) ∷ []) }
{
    let expr = record_at(exprs, at);
    give(spares, exprs, at);
    expr.first
}

// Whether two branches are to be swapped: the test is `!t`, and the alternate is no `if`.
pub fn can_swap(exprs: &[ExprRecord], stmts: &[StmtRecord], test: u32, branches: u32) -> bool
    ensures { (ds : List DeclEntry) (t : Expr) (v : Row) (c x : Stmt) (w : Row) → Short (tables exprs.now stmts.now ds) →
        At (tables exprs.now stmts.now ds) (expr_at test) (expr_row t v) →
        At (tables exprs.now stmts.now ds) (stmt_at branches) (stmt_row c (stmt_row x w)) → result ≡ swaps (not? t) (branch? x) }
{
    match record_at(exprs, test).kind {
        ExpressionKind::Not => !is_if(stmts, record_at(stmts, branches).next),
        _ => false,
    }
}
