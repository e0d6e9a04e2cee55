// An `if` as a logical expression.
// A routine is lent slices of the tables that it works on: what it is not lent is known to stay, with no clause.
ghost use Rattle.std.specs.Prelude.{cond, List, [], ◌∷◌, ◌≤◌};
ghost use Rattle.script.specs.Tree.{Expr};
ghost use Rattle.records.specs.declared.record.DeclRecord.{DeclRecord as DeclEntry};
ghost use Rattle.records.specs.declared.record.StmtRecord.{StmtRecord as StmtEntry};
ghost use Rattle.records.specs.Embedding.{expr_row};
ghost use Rattle.records.specs.Heap.{expr_at};
ghost use Rattle.records.specs.Readable.{tables};
ghost use Rattle.records.specs.Rows.{end};
ghost use Rattle.rules.specs.Expressions.{join_with_left_associative_op, minimize_not};
ghost use Rattle.rules.specs.Ifs.{else_to_logical, has_negated_result, if_to_logical};
ghost use Rattle.moves.specs.Moved.{Turns};

use joining::{join_with_left_associative_op, minimize_not};
use predicates::has_negated_result;
use records::{ExprRecord, Pools};
use script::LogicalOperator;

// Joins an expression to a test by one operator, or to the test without its `!` by the other.
fn to_logical(
    exprs: &mut [ExprRecord],
    pools: &mut Pools,
    plain: LogicalOperator,
    turned: LogicalOperator,
    test: u32,
    expr: u32,
)
    ensures { (ss : List StmtEntry) (ds : List DeclEntry) (t e : Expr) → 2 ≤ pools.old.exprs.count →
        Turns (tables exprs.old ss ds) pools.old (tables exprs.new ss ds) pools.new
        [] ((expr_at test, expr_row t end) ∷ (expr_at expr, expr_row e end) ∷ [])
        ((
          expr_at test,
          expr_row (cond (has_negated_result t) (join_with_left_associative_op turned (minimize_not t) e)
              (join_with_left_associative_op plain t e)) end,
        ) ∷ []) }
{
    if has_negated_result(exprs, test) {
        minimize_not(exprs, pools, test);
        join_with_left_associative_op(exprs, pools, turned, test, expr);
    } else {
        join_with_left_associative_op(exprs, pools, plain, test, expr);
    }
}

// `if (t) e` as `t && e`.
pub fn if_to_logical(exprs: &mut [ExprRecord], pools: &mut Pools, test: u32, expr: u32)
    ensures { (ss : List StmtEntry) (ds : List DeclEntry) (t e : Expr) → 2 ≤ pools.old.exprs.count →
        Turns (tables exprs.old ss ds) pools.old (tables exprs.new ss ds) pools.new
        [] ((expr_at test, expr_row t end) ∷ (expr_at expr, expr_row e end) ∷ []) ((expr_at test, expr_row (if_to_logical t e) end) ∷ []) }
{
    to_logical(
        exprs,
        pools,
        LogicalOperator::And,
        LogicalOperator::Or,
        test,
        expr,
    );
}

// `if (t); else e` as `t || e`.
pub fn else_to_logical(exprs: &mut [ExprRecord], pools: &mut Pools, test: u32, expr: u32)
    ensures { (ss : List StmtEntry) (ds : List DeclEntry) (t e : Expr) → 2 ≤ pools.old.exprs.count →
        Turns (tables exprs.old ss ds) pools.old (tables exprs.new ss ds) pools.new
        [] ((expr_at test, expr_row t end) ∷ (expr_at expr, expr_row e end) ∷ []) ((expr_at test, expr_row (else_to_logical t e) end) ∷ []) }
{
    to_logical(
        exprs,
        pools,
        LogicalOperator::Or,
        LogicalOperator::And,
        test,
        expr,
    );
}
