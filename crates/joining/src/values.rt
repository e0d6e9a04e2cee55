// Expressions made anew: `void 0` and `a === b`.
// A routine is lent slices of the tables that it works on: what it is not lent is known to stay, with no clause.
ghost use Rattle.std.specs.Prelude.{List, [], ◌∷◌, ◌≤◌};
ghost use Rattle.script.specs.Tree.{Expr, number, strict_equality, void};
ghost use Rattle.records.specs.declared.record.DeclRecord.{DeclRecord as DeclEntry};
ghost use Rattle.records.specs.declared.record.StmtRecord.{StmtRecord as StmtEntry};
ghost use Rattle.records.specs.Embedding.{expr_row};
ghost use Rattle.records.specs.Heap.{expr_at, expr_label};
ghost use Rattle.records.specs.Readable.{tables};
ghost use Rattle.records.specs.Rows.{Row, end, node};
ghost use Rattle.moves.specs.Moved.{Turns};

use moves::{link, set, take};
use pool::NOWHERE;
use records::{ExprRecord, Pools};
use script::ExpressionKind;

// A new expression of this kind, whose parts are a row.
pub fn make(exprs: &mut [ExprRecord], pools: &mut Pools, kind: ExpressionKind, first: u32) -> u32
    ensures { (ss : List StmtEntry) (ds : List DeclEntry) (v : Row) → 1 ≤ pools.old.exprs.count →
        Turns (tables exprs.old ss ds) pools.old (tables exprs.new ss ds) pools.new
        [] ((expr_at first, v) ∷ []) ((expr_at result, node (expr_label kind) v end end end) ∷ []) }
{
    let at = take(&mut pools.exprs, exprs);
    set(
        exprs,
        at,
        ExprRecord {
            kind,
            first,
            next: NOWHERE,
        },
    );
    at
}

// `void 0`.
pub fn void_0(exprs: &mut [ExprRecord], pools: &mut Pools) -> u32
    ensures { (ss : List StmtEntry) (ds : List DeclEntry) → 2 ≤ pools.old.exprs.count →
        Turns (tables exprs.old ss ds) pools.old (tables exprs.new ss ds) pools.new
        [] [] ((expr_at result, expr_row (void (number 0)) end) ∷ []) }
{
    let zero = make(exprs, pools, ExpressionKind::Number(0), NOWHERE);
    make(exprs, pools, ExpressionKind::Void, zero)
}

// `a === b`.
pub fn strict_equality(exprs: &mut [ExprRecord], pools: &mut Pools, a: u32, b: u32) -> u32
    ensures { (ss : List StmtEntry) (ds : List DeclEntry) (x y : Expr) → 1 ≤ pools.old.exprs.count →
        Turns (tables exprs.old ss ds) pools.old (tables exprs.new ss ds) pools.new
        [] ((expr_at a, expr_row x end) ∷ (expr_at b, expr_row y end) ∷ []) ((expr_at result, expr_row (strict_equality x y) end) ∷ []) }
{
    link(exprs, a, b);
    make(exprs, pools, ExpressionKind::StrictEquality, a)
}
