// The leading assignments of an expression go into the declaration before it.
// A routine is lent slices of the tables that it works on: what it is not lent is known to stay, with no clause.
ghost use Rattle.std.specs.Prelude.{◌≡◌, ◌||◌, List, [], ◌∷◌, is_some, unwrap_or};
ghost use Rattle.script.specs.Tree.{Declarators, Expr, Exprs, Stmts};
ghost use Rattle.records.specs.declared.record.DeclRecord.{DeclRecord as DeclEntry};
ghost use Rattle.records.specs.declared.record.StmtRecord.{StmtRecord as StmtEntry};
ghost use Rattle.records.specs.Embedding.{declarators_row, expr_row, exprs_row, optional_row, stmts_row};
ghost use Rattle.records.specs.Heap.{Place, decl_at, expr_at, stmt_at};
ghost use Rattle.records.specs.Owned.{Owns, Root};
ghost use Rattle.records.specs.Readable.{tables};
ghost use Rattle.records.specs.Rows.{end};
ghost use Rattle.rules.specs.Expressions.{sequence?};
ghost use Rattle.rules.specs.Merging.{items_of, merge_leading, merge_leading_assignments_to_declaration, sequence_of_items};
ghost use Rattle.moves.specs.Moved.{Moved, Turns};
ghost use Rattle.merging.specs.Leading.{declarators_after, has_taken, items_after, leading_step};
ghost use Rattle.merging.specs.Searched.{leads};

use crate::declarators::merge_assignment_to_declaration;
use crate::worked::Worked;
use moves::{give, record_at, set};
use pool::NOWHERE;
use records::{DeclRecord, ExprRecord, Pools, StmtRecord};
use script::{DeclarationKind, ExpressionKind, StatementKind};

// May an item with this behind it go: the last one stays if its value is wanted.
fn may_go(discarded: bool, next: u32) -> bool
    ensures { result ≡ (discarded || leads next) }
{
    discarded || next != NOWHERE
}

// Merges the first item, if it is an assignment that a declarator takes, and tells what is behind it.
fn merge_leading_item(
    discarded: bool,
    exprs: &mut [ExprRecord],
    decls: &mut [DeclRecord],
    pools: &mut Pools,
    kind: DeclarationKind,
    names: u32,
    items: u32,
) -> Option<u32>
    ensures { (ss : List StmtEntry) (xs : Exprs) (ds : Declarators) (loose : List Place) (rest : List Root) →
        Owns (tables exprs.old ss decls.old) pools.old loose
        ((decl_at names, declarators_row ds) ∷ (expr_at items, exprs_row xs) ∷ rest) →
        (is_some result ≡ has_taken (leading_step discarded xs kind ds))
        × Moved (tables exprs.old ss decls.old) (tables exprs.new ss decls.new) pools.new loose
        ((decl_at names, declarators_row (declarators_after (leading_step discarded xs kind ds) ds))
        ∷ (expr_at (unwrap_or result items), exprs_row (items_after (leading_step discarded xs kind ds) xs)) ∷ rest) }
{
    let item = record_at(exprs, items);
    if !may_go(discarded, item.next) {
        return None;
    }
    let ExpressionKind::Assignment(name) = item.kind else {
        return None;
    };
    if !merge_assignment_to_declaration(kind, exprs, decls, names, name, item.first) {
        return None;
    }
    give(&mut pools.exprs, exprs, items);
    Some(item.next)
}

// Merges items from the first on, and tells which are left.
fn merge_leading_items(
    discarded: bool,
    exprs: &mut [ExprRecord],
    decls: &mut [DeclRecord],
    pools: &mut Pools,
    kind: DeclarationKind,
    names: u32,
    items: u32,
) -> u32
    ensures { (ss : List StmtEntry) (xs : Exprs) (ds : Declarators) →
        Turns (tables exprs.old ss decls.old) pools.old (tables exprs.new ss decls.new) pools.new
        [] ((decl_at names, declarators_row ds) ∷ (expr_at items, exprs_row xs) ∷ [])
        ((decl_at names, declarators_row (merge_leading discarded xs kind ds).declarators)
        ∷ (expr_at result, exprs_row (merge_leading discarded xs kind ds).items) ∷ []) }
{
    let mut left = items;
    // A row has no more records than its table.
    for _ in 0..exprs.len() {
        let Some(behind) = merge_leading_item(discarded, exprs, decls, pools, kind, names, left)
        else {
            return left;
        };
        left = behind;
    }
    left
}

// The sequence of the items that are left; its record goes if there is one item or none.
fn close_sequence(exprs: &mut [ExprRecord], pools: &mut Pools, at: u32, items: u32) -> u32
    ensures { (ss : List StmtEntry) (ds : List DeclEntry) (xs : Exprs) →
        Turns (tables exprs.old ss ds) pools.old (tables exprs.new ss ds) pools.new
        (expr_at at ∷ []) ((expr_at items, exprs_row xs) ∷ []) ((expr_at result, optional_row (sequence_of_items xs) end) ∷ []) }
{
    if items == NOWHERE || record_at(exprs, items).next == NOWHERE {
        give(&mut pools.exprs, exprs, at);
        return items;
    }
    set(
        exprs,
        at,
        ExprRecord {
            kind: ExpressionKind::Sequence,
            first: items,
            next: NOWHERE,
        },
    );
    at
}

// Merges the leading assignments of an expression into declarators, and tells what is left of it.
fn merge_leading(
    discarded: bool,
    exprs: &mut [ExprRecord],
    decls: &mut [DeclRecord],
    pools: &mut Pools,
    kind: DeclarationKind,
    names: u32,
    target: u32,
) -> u32
    ensures { (ss : List StmtEntry) (e : Expr) (ds : Declarators) →
        Turns (tables exprs.old ss decls.old) pools.old (tables exprs.new ss decls.new) pools.new
        [] ((decl_at names, declarators_row ds) ∷ (expr_at target, expr_row e end) ∷ [])
        ((decl_at names, declarators_row (merge_leading discarded (items_of (sequence? e)) kind ds).declarators)
        ∷ (expr_at result, optional_row (sequence_of_items (merge_leading discarded (items_of (sequence? e)) kind ds).items) end) ∷ []) }
{
    let expr = record_at(exprs, target);
    let ExpressionKind::Sequence = expr.kind else {
        return merge_leading_items(discarded, exprs, decls, pools, kind, names, target);
    };
    let items = merge_leading_items(discarded, exprs, decls, pools, kind, names, expr.first);
    close_sequence(exprs, pools, target, items)
}

// Merges the leading assignments of the target into the newest result, if that is a declaration.
pub fn merge_leading_assignments_to_declaration(
    discarded: bool,
    exprs: &mut [ExprRecord],
    stmts: &[StmtRecord],
    decls: &mut [DeclRecord],
    pools: &mut Pools,
    target: u32,
    results: u32,
) -> Worked
    ensures { (e : Expr) (r : Stmts) →
        Turns (tables exprs.old stmts.now decls.old) pools.old
        (tables exprs.new stmts.now decls.new) pools.new
        [] ((expr_at target, expr_row e end) ∷ (stmt_at results, stmts_row r) ∷ [])
        ((expr_at result.target, optional_row (merge_leading_assignments_to_declaration discarded e r).target end)
        ∷ (stmt_at result.results, stmts_row (merge_leading_assignments_to_declaration discarded e r).results) ∷ []) }
{
    let last = record_at(stmts, results);
    let StatementKind::Declaration(kind) = last.kind else {
        return Worked { target, results };
    };
    let target = merge_leading(discarded, exprs, decls, pools, kind, last.decls, target);
    Worked { target, results }
}
