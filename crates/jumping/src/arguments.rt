// The arguments of two jumps as one.
// A routine is lent slices of the tables that it works on: what it is not lent is known to stay, with no clause.
ghost use Rattle.std.specs.Prelude.{◌≤◌, List, [], ◌∷◌};
ghost use Rattle.script.specs.Tree.{Expr, OptionalExpr};
ghost use Rattle.records.specs.declared.record.DeclRecord.{DeclRecord as DeclEntry};
ghost use Rattle.records.specs.declared.record.StmtRecord.{StmtRecord as StmtEntry};
ghost use Rattle.records.specs.Embedding.{expr_row, optional_row};
ghost use Rattle.records.specs.Heap.{expr_at, stmt_at};
ghost use Rattle.records.specs.Readable.{tables};
ghost use Rattle.records.specs.Rows.{end};
ghost use Rattle.rules.specs.Expressions.{minimize_conditional};
ghost use Rattle.rules.specs.Returns.{value_or_void_0};
ghost use Rattle.moves.specs.Moved.{Turns};

use joining::{minimize_conditional, void_0};
use moves::give;
use pool::NOWHERE;
use records::{ExprRecord, Pools, StmtRecord};

// An argument, or `void 0` where there is none.
fn value_or_void_0(exprs: &mut [ExprRecord], pools: &mut Pools, value: u32) -> u32
    ensures { (ss : List StmtEntry) (ds : List DeclEntry) (v : OptionalExpr) → 2 ≤ pools.old.exprs.count →
        Turns (tables exprs.old ss ds) pools.old (tables exprs.new ss ds) pools.new
        [] ((expr_at value, optional_row v end) ∷ []) ((expr_at result, expr_row (value_or_void_0 v) end) ∷ []) }
{
    if value == NOWHERE {
        return void_0(exprs, pools);
    }
    value
}

// `if (t) throw a; throw b` has `t ? a : b` for its argument; the `if` and the throw in it become spare.
fn join_arguments(
    exprs: &mut [ExprRecord],
    stmts: &mut [StmtRecord],
    pools: &mut Pools,
    at: u32,
    inner: u32,
    test: u32,
    a: u32,
    b: u32,
)
    ensures { (ds : List DeclEntry) (t x y : Expr) → 1 ≤ pools.old.exprs.count →
        Turns (tables exprs.old stmts.old ds) pools.old (tables exprs.new stmts.new ds) pools.new
        (stmt_at inner ∷ stmt_at at ∷ []) ((expr_at test, expr_row t end) ∷ (expr_at a, expr_row x end) ∷ (expr_at b, expr_row y end) ∷ [])
        ((expr_at test, expr_row (minimize_conditional t x y) end) ∷ []) }
{
    give(&mut pools.stmts, stmts, inner);
    give(&mut pools.stmts, stmts, at);
    minimize_conditional(exprs, pools, test, a, b);
}

// The same for `if (t) return a; return b`, with `void 0` where a or b is missing.
pub fn join_values(
    exprs: &mut [ExprRecord],
    stmts: &mut [StmtRecord],
    pools: &mut Pools,
    at: u32,
    inner: u32,
    test: u32,
    a: u32,
    b: u32,
)
    ensures { (ds : List DeclEntry) (t : Expr) (v u : OptionalExpr) → 5 ≤ pools.old.exprs.count →
        Turns (tables exprs.old stmts.old ds) pools.old (tables exprs.new stmts.new ds) pools.new
        (stmt_at inner ∷ stmt_at at ∷ []) ((expr_at test, expr_row t end) ∷ (expr_at a, optional_row v end) ∷ (expr_at b, optional_row u end) ∷ [])
        ((expr_at test, expr_row (minimize_conditional t (value_or_void_0 v) (value_or_void_0 u)) end) ∷ []) }
{
    let x = value_or_void_0(exprs, pools, a);
    let y = value_or_void_0(exprs, pools, b);
    join_arguments(exprs, stmts, pools, at, inner, test, x, y);
}
