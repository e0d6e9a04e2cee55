// Statements written at a place that is free, and braces.
// A routine is lent slices of the tables that it works on: what it is not lent is known to stay, with no clause.
ghost use Rattle.std.specs.Prelude.{List, [], ◌∷◌, ◌≤◌};
ghost use Rattle.pool.specs.declared.Pool.{Pool as Spare};
ghost use Rattle.script.specs.Tree.{Alternate, Expr, Stmt, block, empty, expression, if_then, no_stmts, stmt_then};
ghost use Rattle.records.specs.declared.record.DeclRecord.{DeclRecord as DeclEntry};
ghost use Rattle.records.specs.declared.record.ExprRecord.{ExprRecord as ExprEntry};
ghost use Rattle.records.specs.declared.record.Pools.{Pools};
ghost use Rattle.records.specs.Embedding.{alternate_row, expr_row, stmt_row};
ghost use Rattle.records.specs.Heap.{expr_at, stmt_at};
ghost use Rattle.records.specs.Readable.{tables};
ghost use Rattle.records.specs.Rows.{Row, end};
ghost use Rattle.rules.specs.Ifs.{branch?, wrap_to_avoid_ambiguous_else};
ghost use Rattle.moves.specs.Moved.{Turns};

use crate::views::{Branch, branch_of};
use moves::{detach, set, take};
use pool::{NOWHERE, Pool};
use records::StmtRecord;
use script::StatementKind;

// An empty statement with nothing behind it.
const EMPTY: StmtRecord = StmtRecord {
    kind: StatementKind::Empty,
    exprs: NOWHERE,
    stmts: NOWHERE,
    decls: NOWHERE,
    next: NOWHERE,
};

// Writes an `if` with its test and one branch or two.
pub fn write_if(stmts: &mut [StmtRecord], at: u32, test: u32, branches: u32)
    ensures { (es : List ExprEntry) (ds : List DeclEntry) (p : Pools) (t : Expr) (c : Stmt) (a : Alternate) →
        Turns (tables es stmts.old ds) p (tables es stmts.new ds) p
        (stmt_at at ∷ []) ((expr_at test, expr_row t end) ∷ (stmt_at branches, stmt_row c (alternate_row a)) ∷ [])
        ((stmt_at at, stmt_row (if_then t c a) end) ∷ []) }
{
    set(
        stmts,
        at,
        StmtRecord {
            kind: StatementKind::If,
            exprs: test,
            stmts: branches,
            ..EMPTY
        },
    );
}

// Writes an expression statement.
pub fn write_expression(stmts: &mut [StmtRecord], at: u32, expr: u32)
    ensures { (es : List ExprEntry) (ds : List DeclEntry) (p : Pools) (e : Expr) →
        Turns (tables es stmts.old ds) p (tables es stmts.new ds) p
        (stmt_at at ∷ []) ((expr_at expr, expr_row e end) ∷ []) ((stmt_at at, stmt_row (expression e) end) ∷ []) }
{
    set(
        stmts,
        at,
        StmtRecord {
            kind: StatementKind::Expression,
            exprs: expr,
            ..EMPTY
        },
    );
}

// Writes an empty statement.
pub fn write_empty(stmts: &mut [StmtRecord], at: u32)
    ensures { (es : List ExprEntry) (ds : List DeclEntry) (p : Pools) →
        Turns (tables es stmts.old ds) p (tables es stmts.new ds) p
        (stmt_at at ∷ []) [] ((stmt_at at, stmt_row empty end) ∷ []) }
{
    set(stmts, at, EMPTY);
}

// Puts the first statement of a row in braces.
pub fn put_in_braces(stmts: &mut [StmtRecord], spares: &mut Pool, row: u32) -> u32
    ensures { (es : List ExprEntry) (ds : List DeclEntry) (a d : Spare) (x : Stmt) (w : Row) → 1 ≤ spares.old.count →
        Turns (tables es stmts.old ds) (record { exprs = a; stmts = spares.old; decls = d })
        (tables es stmts.new ds) (record { exprs = a; stmts = spares.new; decls = d })
        [] ((stmt_at row, stmt_row x w) ∷ []) ((stmt_at result, stmt_row (block (stmt_then x no_stmts)) w) ∷ []) }
{
    let braces = take(spares, stmts);
    let behind = detach(stmts, row);
    set(
        stmts,
        braces,
        StmtRecord {
            kind: StatementKind::Block,
            stmts: row,
            next: behind,
            ..EMPTY
        },
    );
    braces
}

// Puts the first statement of a row in braces if it is an `if` with an alternate.
pub fn wrap_to_avoid_ambiguous_else(stmts: &mut [StmtRecord], spares: &mut Pool, row: u32) -> u32
    ensures { (es : List ExprEntry) (ds : List DeclEntry) (a d : Spare) (x : Stmt) (w : Row) → 1 ≤ spares.old.count →
        Turns (tables es stmts.old ds) (record { exprs = a; stmts = spares.old; decls = d })
        (tables es stmts.new ds) (record { exprs = a; stmts = spares.new; decls = d })
        [] ((stmt_at row, stmt_row x w) ∷ []) ((stmt_at result, stmt_row (wrap_to_avoid_ambiguous_else (branch? x)) w) ∷ []) }
{
    if let Branch::FullIf = branch_of(stmts, row) {
        put_in_braces(stmts, spares, row)
    } else {
        row
    }
}
