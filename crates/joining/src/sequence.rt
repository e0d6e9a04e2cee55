// Sequences: `a, b`.
// A routine is lent slices of the tables that it works on: what it is not lent is known to stay, with no clause.
ghost use Rattle.std.specs.Prelude.{List, [], ◌∷◌, ◌≤◌};
ghost use Rattle.script.specs.Tree.{Expr};
ghost use Rattle.records.specs.declared.record.DeclRecord.{DeclRecord as DeclEntry};
ghost use Rattle.records.specs.declared.record.StmtRecord.{StmtRecord as StmtEntry};
ghost use Rattle.records.specs.Embedding.{expr_row};
ghost use Rattle.records.specs.Heap.{expr_at};
ghost use Rattle.records.specs.Readable.{tables};
ghost use Rattle.records.specs.Rows.{end};
ghost use Rattle.rules.specs.Expressions.{join_sequence};
ghost use Rattle.moves.specs.Moved.{Turns};

use crate::values::make;
use moves::{append, link, record_at, set};
use pool::NOWHERE;
use records::{ExprRecord, Pools};
use script::ExpressionKind;

// `a, b`: an item more of the sequence that one of them is, or a new sequence of both.
pub fn join_sequence(exprs: &mut [ExprRecord], pools: &mut Pools, a: u32, b: u32) -> u32
    ensures { (ss : List StmtEntry) (ds : List DeclEntry) (x y : Expr) → 1 ≤ pools.old.exprs.count →
        Turns (tables exprs.old ss ds) pools.old (tables exprs.new ss ds) pools.new
        [] ((expr_at a, expr_row x end) ∷ (expr_at b, expr_row y end) ∷ []) ((expr_at result, expr_row (join_sequence x y) end) ∷ []) }
{
    let first = record_at(exprs, a);
    if let ExpressionKind::Sequence = first.kind {
        append(exprs, first.first, b);
        return a;
    }
    let second = record_at(exprs, b);
    if let ExpressionKind::Sequence = second.kind {
        link(exprs, a, second.first);
        set(
            exprs,
            b,
            ExprRecord {
                kind: ExpressionKind::Sequence,
                first: a,
                next: NOWHERE,
            },
        );
        return b;
    }
    link(exprs, a, b);
    make(exprs, pools, ExpressionKind::Sequence, a)
}
