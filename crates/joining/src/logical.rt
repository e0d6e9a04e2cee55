// Logical expressions that associate to the left: `a && b && c`.
// A routine is lent slices of the tables that it works on: what it is not lent is known to stay, with no clause.
ghost use Rattle.std.specs.Prelude.{◌≡◌, List, [], ◌∷◌, ◌≤◌};
ghost use Rattle.script.specs.Tree.{Expr, Exprs};
ghost use Rattle.records.specs.declared.record.DeclRecord.{DeclRecord as DeclEntry};
ghost use Rattle.records.specs.declared.record.StmtRecord.{StmtRecord as StmtEntry};
ghost use Rattle.records.specs.Embedding.{expr_row, exprs_row};
ghost use Rattle.records.specs.Heap.{expr_at};
ghost use Rattle.records.specs.Readable.{tables};
ghost use Rattle.records.specs.Rows.{Row, end};
ghost use Rattle.rules.specs.Expressions.{join_onto, join_with_left_associative_op};
ghost use Rattle.moves.specs.Moved.{Turns};
ghost use Rattle.joining.specs.Pending.{has_operator, onto_first, pending_then};

use crate::items::{last_item, wrap};
use moves::{append, detach, give, record_at};
use pool::NOWHERE;
use records::{ExprRecord, Pools};
use script::{ExpressionKind, LogicalOperator};

// Whether a record is a logical expression with this operator.
fn has_operator(kind: ExpressionKind, operator: LogicalOperator) -> bool
    ensures { result ≡ has_operator operator kind }
{
    kind == ExpressionKind::Logical(operator)
}

// Joins the first of a row of pending expressions: one with the same operator makes way for its two parts, and any other becomes
// the right side. Returns the row that is pending then.
fn join_first(
    exprs: &mut [ExprRecord],
    pools: &mut Pools,
    operator: LogicalOperator,
    at: u32,
    pending: u32,
) -> u32
    ensures { (ss : List StmtEntry) (ds : List DeclEntry) (x y : Expr) (xs : Exprs) (w : Row) → 1 ≤ pools.old.exprs.count →
        Turns (tables exprs.old ss ds) pools.old (tables exprs.new ss ds) pools.new
        [] ((expr_at at, expr_row y w) ∷ (expr_at pending, expr_row x (exprs_row xs)) ∷ [])
        ((expr_at at, expr_row (onto_first operator x y) w) ∷ (expr_at result, exprs_row (pending_then operator x xs)) ∷ []) }
{
    let expr = record_at(exprs, pending);
    if has_operator(expr.kind, operator) {
        append(exprs, expr.first, expr.next);
        give(&mut pools.exprs, exprs, pending);
        return expr.first;
    }
    let behind = detach(exprs, pending);
    wrap(exprs, pools, at, ExpressionKind::Logical(operator), pending);
    behind
}

// Joins an expression onto the one at a place, the parts of one with the same operator one after the other.
fn join_onto(
    exprs: &mut [ExprRecord],
    pools: &mut Pools,
    operator: LogicalOperator,
    at: u32,
    b: u32,
)
    ensures { (ss : List StmtEntry) (ds : List DeclEntry) (x y : Expr) (w : Row) → 1 ≤ pools.old.exprs.count →
        Turns (tables exprs.old ss ds) pools.old (tables exprs.new ss ds) pools.new
        [] ((expr_at at, expr_row y w) ∷ (expr_at b, expr_row x end) ∷ []) ((expr_at at, expr_row (join_onto operator x y) w) ∷ []) }
{
    let mut pending = b;
    // Rows are linked by numbers: as many turns as there are records are more than are pending.
    for _ in 0..exprs.len() {
        if pending == NOWHERE {
            return;
        }
        pending = join_first(exprs, pools, operator, at, pending);
    }
}

// `a && b` and the like: b is joined onto the last item of a.
pub fn join_with_left_associative_op(
    exprs: &mut [ExprRecord],
    pools: &mut Pools,
    operator: LogicalOperator,
    a: u32,
    b: u32,
)
    ensures { (ss : List StmtEntry) (ds : List DeclEntry) (x y : Expr) (w : Row) → 1 ≤ pools.old.exprs.count →
        Turns (tables exprs.old ss ds) pools.old (tables exprs.new ss ds) pools.new
        [] ((expr_at a, expr_row x w) ∷ (expr_at b, expr_row y end) ∷ [])
        ((expr_at a, expr_row (join_with_left_associative_op operator x y) w) ∷ []) }
{
    let last = last_item(exprs, a);
    join_onto(exprs, pools, operator, last, b);
}
