// The rules on an `if` that was taken apart.
// A routine is lent slices of the tables that it works on: what it is not lent is known to stay, with no clause.
ghost use Rattle.std.specs.Prelude.{true, List, [], ◌∷◌, ◌≡◌, ◌≤◌};
ghost use Rattle.script.specs.declared.LogicalOperator.TheVariants.{And};
ghost use Rattle.script.specs.Tree.{Alternate, Expr, Stmt, expression, if_then, no_alternate};
ghost use Rattle.records.specs.declared.record.DeclRecord.{DeclRecord as DeclEntry};
ghost use Rattle.records.specs.Embedding.{alternate_row, expr_row, stmt_row};
ghost use Rattle.records.specs.Heap.{expr_at, stmt_at};
ghost use Rattle.records.specs.Readable.{tables};
ghost use Rattle.records.specs.Rows.{end};
ghost use Rattle.rules.specs.Budget.{to_take};
ghost use Rattle.rules.specs.Expressions.{join_with_left_associative_op, minimize_conditional, not?};
ghost use Rattle.rules.specs.Ifs.{branch?, empty?, is_expression, minimize_empty_alone, minimize_empty_else, minimize_empty_if, minimize_full_if};
ghost use Rattle.rules.specs.Ifs.{minimize_if_alone, minimize_if_else, swap_branches, try_minimize_if, wrap_to_avoid_ambiguous_else};
ghost use Rattle.moves.specs.Lent.{Makes, SameSlices};
ghost use Rattle.moves.specs.Moved.{Turns};
ghost use Rattle.joining.specs.Needs.{Enough, slack};
ghost use Rattle.branching.specs.Parts.{Becomes};
ghost use Rattle.branching.specs.Views.{is_nothing};

use crate::branches::{can_swap, exchange, open_expression, open_not};
use crate::logical::{else_to_logical, if_to_logical};
use crate::parts::IfParts;
use crate::statements::{
    put_in_braces, wrap_to_avoid_ambiguous_else, write_empty, write_expression, write_if,
};
use crate::views::{Branch, branch_of, is_empty};
use hosts::Host;
use joining::{join_with_left_associative_op, minimize_conditional, minimize_not};
use moves::{Tables, detach, drop_expr_row, give, record_at};
use pool::NOWHERE;
use records::{ExprRecord, Pools, StmtRecord};
use script::LogicalOperator;

// `if (!t) c else x` as `if (t) x else c`, unless x is an `if`.
fn swap_branches(
    exprs: &mut [ExprRecord],
    stmts: &mut [StmtRecord],
    pools: &mut Pools,
    parts: IfParts,
)
    ensures { (ds : List DeclEntry) (t : Expr) (c x : Stmt) → Enough (to_take 0 1) pools.old →
        Becomes parts (tables exprs.old stmts.old ds) pools.old (tables exprs.new stmts.new ds) pools.new
        t (stmt_row c (stmt_row x end)) (swap_branches (not? t) c (branch? x)) }
{
    if can_swap(exprs, stmts, parts.test, parts.branches) {
        let expr = open_not(exprs, &mut pools.exprs, parts.test);
        let swapped = exchange(stmts, parts.branches);
        write_if(stmts, parts.at, expr, swapped);
    } else {
        let wrapped = wrap_to_avoid_ambiguous_else(stmts, &mut pools.stmts, parts.branches);
        write_if(stmts, parts.at, parts.test, wrapped);
    }
}

// `t ? x : y` of two expression statements, whose records are given back.
fn branches_to_conditional(
    exprs: &mut [ExprRecord],
    stmts: &mut [StmtRecord],
    pools: &mut Pools,
    test: u32,
    branches: u32,
)
    ensures { (ds : List DeclEntry) (t x y : Expr) → 1 ≤ pools.old.exprs.count →
        Turns (tables exprs.old stmts.old ds) pools.old (tables exprs.new stmts.new ds) pools.new
        [] ((expr_at test, expr_row t end) ∷ (stmt_at branches, stmt_row (expression x) (stmt_row (expression y) end)) ∷ [])
        ((expr_at test, expr_row (minimize_conditional t x y) end) ∷ []) }
{
    let other = detach(stmts, branches);
    let a = open_expression(stmts, &mut pools.stmts, branches);
    let b = open_expression(stmts, &mut pools.stmts, other);
    minimize_conditional(exprs, pools, test, a, b);
}

// The consequent is an expression.
fn minimize_expression_else(
    exprs: &mut [ExprRecord],
    stmts: &mut [StmtRecord],
    pools: &mut Pools,
    parts: IfParts,
)
    ensures { (ds : List DeclEntry) (t e : Expr) (x : Stmt) → 1 ≤ pools.old.exprs.count →
        Becomes parts (tables exprs.old stmts.old ds) pools.old (tables exprs.new stmts.new ds) pools.new
        t (stmt_row (expression e) (stmt_row x end)) (minimize_if_else t (is_expression e) (branch? x)) }
{
    let stmt = record_at(stmts, parts.branches);
    if let Branch::Expression = branch_of(stmts, stmt.next) {
        branches_to_conditional(exprs, stmts, pools, parts.test, parts.branches);
        write_expression(stmts, parts.at, parts.test);
    } else {
        write_if(stmts, parts.at, parts.test, parts.branches);
    }
}

// An `if` with an alternate.
fn minimize_if_else(
    exprs: &mut [ExprRecord],
    stmts: &mut [StmtRecord],
    pools: &mut Pools,
    parts: IfParts,
)
    ensures { (ds : List DeclEntry) (t : Expr) (c x : Stmt) → Enough (to_take 1 1) pools.old →
        Becomes parts (tables exprs.old stmts.old ds) pools.old (tables exprs.new stmts.new ds) pools.new
        t (stmt_row c (stmt_row x end)) (minimize_if_else t (branch? c) (branch? x)) }
{
    if let Branch::Expression = branch_of(stmts, parts.branches) {
        minimize_expression_else(exprs, stmts, pools, parts);
    } else {
        swap_branches(exprs, stmts, pools, parts);
    }
}

// Joins the test of an inner `if` to the outer test; its body is the result, and its record is given back.
fn merge_inner_if(
    exprs: &mut [ExprRecord],
    stmts: &mut [StmtRecord],
    pools: &mut Pools,
    test: u32,
    inner: u32,
) -> u32
    ensures { (ds : List DeclEntry) (t u : Expr) (x : Stmt) → Enough (to_take 1 1) pools.old →
        Turns (tables exprs.old stmts.old ds) pools.old (tables exprs.new stmts.new ds) pools.new
        [] ((expr_at test, expr_row t end) ∷ (stmt_at inner, stmt_row (if_then u x no_alternate) end) ∷ [])
        ((expr_at test, expr_row (join_with_left_associative_op And t u) end)
        ∷ (stmt_at result, stmt_row (wrap_to_avoid_ambiguous_else (branch? x)) end) ∷ []) }
{
    let stmt = record_at(stmts, inner);
    let body = wrap_to_avoid_ambiguous_else(stmts, &mut pools.stmts, stmt.stmts);
    join_with_left_associative_op(exprs, pools, LogicalOperator::And, test, stmt.exprs);
    give(&mut pools.stmts, stmts, inner);
    body
}

// An `if` without an alternate.
fn minimize_if_alone(
    exprs: &mut [ExprRecord],
    stmts: &mut [StmtRecord],
    pools: &mut Pools,
    parts: IfParts,
)
    ensures { (ds : List DeclEntry) (t : Expr) (x : Stmt) → Enough (to_take 2 1) pools.old →
        Becomes parts (tables exprs.old stmts.old ds) pools.old (tables exprs.new stmts.new ds) pools.new
        t (stmt_row x end) (minimize_if_alone t (branch? x)) }
{
    match branch_of(stmts, parts.branches) {
        Branch::Expression => {
            let expr = open_expression(stmts, &mut pools.stmts, parts.branches);
            if_to_logical(exprs, pools, parts.test, expr);
            write_expression(stmts, parts.at, parts.test);
        }
        Branch::LoneIf => {
            let body = merge_inner_if(exprs, stmts, pools, parts.test, parts.branches);
            write_if(stmts, parts.at, parts.test, body);
        }
        Branch::FullIf => {
            let braces = put_in_braces(stmts, &mut pools.stmts, parts.branches);
            write_if(stmts, parts.at, parts.test, braces);
        }
        Branch::Other => {
            write_if(stmts, parts.at, parts.test, parts.branches);
        }
    }
}

// The consequent is not empty.
fn minimize_full_if(
    exprs: &mut [ExprRecord],
    stmts: &mut [StmtRecord],
    pools: &mut Pools,
    parts: IfParts,
)
    ensures { (ds : List DeclEntry) (t : Expr) (c : Stmt) (a : Alternate) → Enough (to_take 2 1) pools.old →
        Becomes parts (tables exprs.old stmts.old ds) pools.old (tables exprs.new stmts.new ds) pools.new
        t (stmt_row c (alternate_row a)) (minimize_full_if t c a) }
{
    let stmt = record_at(stmts, parts.branches);
    if stmt.next == NOWHERE {
        minimize_if_alone(exprs, stmts, pools, parts);
    } else {
        minimize_if_else(exprs, stmts, pools, parts);
    }
}

// `if (t);` as `t`, or nothing.
fn minimize_empty_alone<H: Host>(
    host: &H,
    exprs: &mut [ExprRecord],
    stmts: &mut [StmtRecord],
    pools: &mut Pools,
    at: u32,
    test: u32,
)
    ensures { (ds : List DeclEntry) (t : Expr) →
        Turns (tables exprs.old stmts.old ds) pools.old (tables exprs.new stmts.new ds) pools.new
        (stmt_at at ∷ []) ((expr_at test, expr_row t end) ∷ [])
        ((stmt_at at, stmt_row (minimize_empty_alone (H.meaning host.now) t) end) ∷ []) }
{
    if host.is_harmless(exprs, test) {
        drop_expr_row(exprs, pools, test);
        write_empty(stmts, at);
    } else {
        write_expression(stmts, at, test);
    }
}

// `if (t); else x` as `if (!t) x`.
fn minimize_empty_else(
    exprs: &mut [ExprRecord],
    stmts: &mut [StmtRecord],
    pools: &mut Pools,
    parts: IfParts,
)
    ensures { (ds : List DeclEntry) (t : Expr) (x : Stmt) → Enough (to_take 3 1) pools.old →
        Becomes parts (tables exprs.old stmts.old ds) pools.old (tables exprs.new stmts.new ds) pools.new
        t (stmt_row x end) (minimize_empty_else t (branch? x)) }
{
    if let Branch::Expression = branch_of(stmts, parts.branches) {
        let expr = open_expression(stmts, &mut pools.stmts, parts.branches);
        else_to_logical(exprs, pools, parts.test, expr);
        write_expression(stmts, parts.at, parts.test);
    } else {
        minimize_not(exprs, pools, parts.test);
        minimize_if_alone(exprs, stmts, pools, parts);
    }
}

// What an `if` without its empty consequent is: the row has its alternate or nothing.
fn minimize_without_consequent<H: Host>(
    host: &H,
    exprs: &mut [ExprRecord],
    stmts: &mut [StmtRecord],
    pools: &mut Pools,
    parts: IfParts,
)
    ensures { (ds : List DeclEntry) (t : Expr) (a : Alternate) → Enough (to_take 3 1) pools.old →
        Becomes parts (tables exprs.old stmts.old ds) pools.old (tables exprs.new stmts.new ds) pools.new
        t (alternate_row a) (minimize_empty_if (H.meaning host.now) t a) }
{
    if parts.branches == NOWHERE {
        minimize_empty_alone(host, exprs, stmts, pools, parts.at, parts.test);
    } else {
        minimize_empty_else(exprs, stmts, pools, parts);
    }
}

// The consequent is empty, or a block of none: its record is given back.
fn minimize_empty_if<H: Host>(
    host: &H,
    exprs: &mut [ExprRecord],
    stmts: &mut [StmtRecord],
    pools: &mut Pools,
    parts: IfParts,
)
    ensures { (ds : List DeclEntry) (t : Expr) (c : Stmt) (a : Alternate) → is_nothing (empty? c) ≡ true → Enough (to_take 3 1) pools.old →
        Becomes parts (tables exprs.old stmts.old ds) pools.old (tables exprs.new stmts.new ds) pools.new
        t (stmt_row c (alternate_row a)) (minimize_empty_if (H.meaning host.now) t a) }
{
    let stmt = record_at(stmts, parts.branches);
    let rest = IfParts {
        branches: stmt.next,
        ..parts
    };
    minimize_without_consequent(host, exprs, stmts, pools, rest);
    give(&mut pools.stmts, stmts, parts.branches);
}

// An `if` by itself: a logical expression, a conditional, a smaller `if`, or nothing.
pub fn try_minimize_if<H: Host>(host: &H, tables: &mut Tables, parts: IfParts) -> u32
    ensures lent { SameSlices tables.old tables.new }
    ensures makes { (t : Expr) (c : Stmt) (a : Alternate) → Enough slack tables.old.pools →
        Makes tables.old tables.new
        (stmt_at parts.at ∷ []) ((expr_at parts.test, expr_row t end) ∷ (stmt_at parts.branches, stmt_row c (alternate_row a)) ∷ [])
        ((stmt_at result, stmt_row (try_minimize_if (H.meaning host.now) t c a) end) ∷ []) }
{
    if is_empty(tables.stmts(), parts.branches) {
        minimize_empty_if(host, tables.exprs, tables.stmts, &mut tables.pools, parts);
    } else {
        minimize_full_if(tables.exprs, tables.stmts, &mut tables.pools, parts);
    }
    parts.at
}
