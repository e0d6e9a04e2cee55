// A jump takes in the newest results that are an `if` around the same jump.
// A routine is lent slices of the tables that it works on: what it is not lent is known to stay, with no clause.
ghost use Rattle.std.specs.Prelude.{◌≤◌, true, List, [], ◌∷◌};
ghost use Rattle.script.specs.Tree.{Expr, Stmts};
ghost use Rattle.records.specs.declared.record.DeclRecord.{DeclRecord as DeclEntry};
ghost use Rattle.records.specs.Embedding.{expr_row, stmts_row};
ghost use Rattle.records.specs.Heap.{expr_at, stmt_at};
ghost use Rattle.records.specs.Readable.{tables};
ghost use Rattle.records.specs.Rows.{end};
ghost use Rattle.rules.specs.Merging.{push_new_expression_stmt_to_result};
ghost use Rattle.moves.specs.Moved.{Turns};
ghost use Rattle.joining.specs.Needs.{EnoughFor};
ghost use Rattle.jumping.specs.Going.{Argument, TakesTurn, in_hand, merged, rule};

use crate::arguments::join_values;
use crate::jump::Jump;
use crate::newest::is_if_jump;
use merging::{Worked, push_new_expression_stmt_to_result};
use moves::{give, record_at};
use pool::NOWHERE;
use records::{ExprRecord, Pools, StmtRecord};
use std::ops::ControlFlow;

// `if (t) return; return` leaves `t` before the return; the `if` and the return in it become spare.
fn leave_test(
    exprs: &mut [ExprRecord],
    stmts: &mut [StmtRecord],
    pools: &mut Pools,
    at: u32,
    inner: u32,
    test: u32,
    results: u32,
) -> u32
    ensures { (ds : List DeclEntry) (t : Expr) (r : Stmts) → 1 ≤ pools.old.exprs.count → 1 ≤ pools.old.stmts.count →
        Turns (tables exprs.old stmts.old ds) pools.old (tables exprs.new stmts.new ds) pools.new
        (stmt_at inner ∷ stmt_at at ∷ []) ((expr_at test, expr_row t end) ∷ (stmt_at results, stmts_row r) ∷ [])
        ((stmt_at result, stmts_row (push_new_expression_stmt_to_result true t r)) ∷ []) }
{
    let left = push_new_expression_stmt_to_result(true, exprs, stmts, pools, test, results);
    give(&mut pools.stmts, stmts, inner);
    give(&mut pools.stmts, stmts, at);
    left
}

// Takes in the newest result if it is an `if` around the same jump: the argument and the results before it, and whether to go on.
fn merge_jump(
    jump: Jump,
    exprs: &mut [ExprRecord],
    stmts: &mut [StmtRecord],
    pools: &mut Pools,
    value: u32,
    results: u32,
) -> ControlFlow<Worked, Worked>
    ensures { (ds : List DeclEntry) →
        TakesTurn (rule jump) (tables exprs.old stmts.old ds) pools.old
        (tables exprs.new stmts.new ds) pools.new value results result }
{
    let stays = Worked {
        target: value,
        results,
    };
    if !is_if_jump(jump, stmts, results) {
        return ControlFlow::Break(stays);
    }
    let last = record_at(stmts, results);
    let inner = record_at(stmts, last.stmts);
    if value == NOWHERE && inner.exprs == NOWHERE {
        let left = leave_test(
            exprs, stmts, pools, results, last.stmts, last.exprs, last.next,
        );
        return ControlFlow::Break(Worked {
            target: NOWHERE,
            results: left,
        });
    }
    if !jump.may_merge(exprs, value) {
        return ControlFlow::Break(stays);
    }
    let taken_in = Worked {
        target: last.exprs,
        results: last.next,
    };
    join_values(
        exprs,
        stmts,
        pools,
        results,
        last.stmts,
        last.exprs,
        inner.exprs,
        value,
    );
    ControlFlow::Continue(taken_in)
}

// Takes in the newest results, one by one, and puts the jump in front of what is left.
fn jump_loop(
    jump: Jump,
    exprs: &mut [ExprRecord],
    stmts: &mut [StmtRecord],
    pools: &mut Pools,
    at: u32,
    value: u32,
    results: u32,
) -> u32
    ensures { (ds : List DeclEntry) (a : Argument jump) (r : Stmts) → EnoughFor ((rule jump).stmt a) r pools.old →
        Turns (tables exprs.old stmts.old ds) pools.old (tables exprs.new stmts.new ds) pools.new
        (stmt_at at ∷ []) (in_hand (rule jump) value results a r [])
        ((stmt_at result, stmts_row ((rule jump).loop r a)) ∷ []) }
{
    let mut worked = Worked {
        target: value,
        results,
    };
    for _ in 0..stmts.len() {
        match merge_jump(jump, exprs, stmts, pools, worked.target, worked.results) {
            ControlFlow::Break(done) => return jump.push(stmts, at, done.target, done.results),
            ControlFlow::Continue(next) => worked = next,
        }
    }
    jump.push(stmts, at, worked.target, worked.results)
}

// The same if the option `sequences` is on; else the jump is only put in front of the results.
pub fn merge_jumps(
    jump: Jump,
    sequences: bool,
    exprs: &mut [ExprRecord],
    stmts: &mut [StmtRecord],
    pools: &mut Pools,
    at: u32,
    value: u32,
    results: u32,
) -> u32
    ensures { (ds : List DeclEntry) (a : Argument jump) (r : Stmts) → EnoughFor ((rule jump).stmt a) r pools.old →
        Turns (tables exprs.old stmts.old ds) pools.old (tables exprs.new stmts.new ds) pools.new
        (stmt_at at ∷ []) (in_hand (rule jump) value results a r [])
        ((stmt_at result, stmts_row (merged (rule jump) sequences a r)) ∷ []) }
{
    if sequences {
        return jump_loop(jump, exprs, stmts, pools, at, value, results);
    }
    jump.push(stmts, at, value, results)
}
