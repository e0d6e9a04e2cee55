// The last item of an expression, and what is made of it in place.
// A routine is lent slices of the tables that it works on: what it is not lent is known to stay, with no clause.
ghost use Rattle.std.specs.Prelude.{◌≡◌, List, [], ◌∷◌, ◌≤◌, length};
ghost use Rattle.script.specs.Sound.{records_expr};
ghost use Rattle.script.specs.Tree.{Expr};
ghost use Rattle.records.specs.declared.record.DeclRecord.{DeclRecord as DeclEntry};
ghost use Rattle.records.specs.declared.record.StmtRecord.{StmtRecord as StmtEntry};
ghost use Rattle.records.specs.Embedding.{expr_row};
ghost use Rattle.records.specs.Heap.{expr_at, expr_label};
ghost use Rattle.records.specs.Owned.{Short};
ghost use Rattle.records.specs.Readable.{tables};
ghost use Rattle.records.specs.Rows.{At, Row, end, node};
ghost use Rattle.rules.specs.Expressions.{minimize_conditional, minimize_not, negate as negated};
ghost use Rattle.moves.specs.Moved.{Turns};
ghost use Rattle.joining.specs.LastItem.{last_item_place};

use moves::{give, last_of_row, link, record_at, set, take};
use pool::NOWHERE;
use records::{ExprRecord, Pools};
use script::ExpressionKind;

// The last item of the expression at a place, through sequences that end in a sequence.
pub fn last_item(exprs: &[ExprRecord], at: u32) -> u32
    ensures { (ss : List StmtEntry) (ds : List DeclEntry) (e : Expr) (w : Row) → Short (tables exprs.now ss ds) →
        At (tables exprs.now ss ds) (expr_at at) (expr_row e w) → records_expr e ≤ length exprs.now →
        expr_at result ≡ last_item_place (tables exprs.now ss ds) (expr_at at) e }
{
    let mut last = at;
    // Each turn goes down into a sequence, so as many turns as there are records are enough.
    for _ in 0..exprs.len() {
        let item = record_at(exprs, last);
        let ExpressionKind::Sequence = item.kind else {
            return last;
        };
        last = last_of_row(exprs, item.first);
    }
    last
}

// The content of a record moves into a new one, in front of a row: the first part of what the record becomes.
pub fn wrap(exprs: &mut [ExprRecord], pools: &mut Pools, at: u32, kind: ExpressionKind, row: u32)
    ensures { (ss : List StmtEntry) (ds : List DeclEntry) (e : Expr) (w v : Row) → 1 ≤ pools.old.exprs.count →
        Turns (tables exprs.old ss ds) pools.old (tables exprs.new ss ds) pools.new
        [] ((expr_at at, expr_row e w) ∷ (expr_at row, v) ∷ []) ((expr_at at, node (expr_label kind) (expr_row e v) end end w) ∷ []) }
{
    let expr = record_at(exprs, at);
    let inner = take(&mut pools.exprs, exprs);
    set(exprs, inner, ExprRecord { next: row, ..expr });
    set(
        exprs,
        at,
        ExprRecord {
            kind,
            first: inner,
            ..expr
        },
    );
}

// `!e` for `e`, and `e` for `!e`.
fn negate(exprs: &mut [ExprRecord], pools: &mut Pools, at: u32)
    ensures { (ss : List StmtEntry) (ds : List DeclEntry) (e : Expr) (w : Row) → 1 ≤ pools.old.exprs.count →
        Turns (tables exprs.old ss ds) pools.old (tables exprs.new ss ds) pools.new
        [] ((expr_at at, expr_row e w) ∷ []) ((expr_at at, expr_row (negated e) w) ∷ []) }
{
    let expr = record_at(exprs, at);
    if let ExpressionKind::Not = expr.kind {
        let inner = record_at(exprs, expr.first);
        give(&mut pools.exprs, exprs, expr.first);
        set(
            exprs,
            at,
            ExprRecord {
                next: expr.next,
                ..inner
            },
        );
        return;
    }
    wrap(exprs, pools, at, ExpressionKind::Not, NOWHERE);
}

// The last item is negated.
pub fn minimize_not(exprs: &mut [ExprRecord], pools: &mut Pools, at: u32)
    ensures { (ss : List StmtEntry) (ds : List DeclEntry) (e : Expr) (w : Row) → 1 ≤ pools.old.exprs.count →
        Turns (tables exprs.old ss ds) pools.old (tables exprs.new ss ds) pools.new
        [] ((expr_at at, expr_row e w) ∷ []) ((expr_at at, expr_row (minimize_not e) w) ∷ []) }
{
    let last = last_item(exprs, at);
    negate(exprs, pools, last);
}

// `test ? a : b`, the test's last item being the test.
pub fn minimize_conditional(exprs: &mut [ExprRecord], pools: &mut Pools, test: u32, a: u32, b: u32)
    ensures { (ss : List StmtEntry) (ds : List DeclEntry) (t x y : Expr) (w : Row) → 1 ≤ pools.old.exprs.count →
        Turns (tables exprs.old ss ds) pools.old (tables exprs.new ss ds) pools.new
        [] ((expr_at test, expr_row t w) ∷ (expr_at a, expr_row x end) ∷ (expr_at b, expr_row y end) ∷ [])
        ((expr_at test, expr_row (minimize_conditional t x y) w) ∷ []) }
{
    link(exprs, a, b);
    let last = last_item(exprs, test);
    wrap(exprs, pools, last, ExpressionKind::Conditional, a);
}
