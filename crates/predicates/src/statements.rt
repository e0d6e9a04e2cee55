// Whether a statement ends what follows it, whether it declares a name in its list, and whether a break would leave it.
ghost use Rattle.std.specs.Prelude.{◌&&◌};
ghost use Rattle.rules.specs.Statements.{any_cares_about_scope, is_terminated, is_terminated_alternate, is_terminated_list, statement_cares_about_scope};
ghost use Rattle.rules.specs.Switches.{has_nested_break, has_nested_break_in_list};
ghost use Rattle.moves.specs.Read.{TellsStmt, TellsStmts};
ghost use Rattle.predicates.specs.Within.{TellsBranchesWithin, TellsSome, TellsStmtWithin, TellsStmtsWithin};

use moves::record_at;
use pool::NOWHERE;
use records::{StmtRecord, along};
use script::{DeclarationKind, StatementKind};

// Whether any statement of a row is such.
fn any_of_row<F: Fn(u32) -> bool>(stmts: &[StmtRecord], row: u32, is_such: F) -> bool
    requires { F.IsAlwaysCallable is_such }
    ensures { TellsSome (F.post is_such) stmts.now row result }
{
    for (at, _) in along(stmts, row) {
        if is_such(at) {
            return true;
        }
    }
    false
}

// Whether a statement ends what follows it.
pub fn is_terminated(stmts: &[StmtRecord], at: u32) -> bool
    ensures { TellsStmt is_terminated stmts.now at result }
{
    terminates(stmts, at, stmts.len())
}

// The same, not deeper than `depth`.
#[cycle(any_terminates_both_terminate_terminates)]
fn terminates(stmts: &[StmtRecord], at: u32, depth: usize) -> bool
    ensures { TellsStmtWithin is_terminated stmts.now at depth result }
{
    let Some(left) = depth.checked_sub(1) else {
        return false;
    };
    let stmt = record_at(stmts, at);
    match stmt.kind {
        StatementKind::Return
        | StatementKind::Throw
        | StatementKind::Break
        | StatementKind::Continue => true,
        StatementKind::If => both_terminate(stmts, stmt.stmts, left),
        StatementKind::Block => any_terminates(stmts, stmt.stmts, left),
        _ => false,
    }
}

// Whether both branches of an `if` end what follows; without an `else` it goes on.
#[cycle(any_terminates_both_terminate_terminates)]
fn both_terminate(stmts: &[StmtRecord], branches: u32, depth: usize) -> bool
    ensures { TellsBranchesWithin (λ c a. is_terminated c && is_terminated_alternate a) stmts.now branches depth result }
{
    let other = record_at(stmts, branches).next;
    other != NOWHERE && terminates(stmts, branches, depth) && terminates(stmts, other, depth)
}

// Whether any statement of a list ends what follows.
#[cycle(any_terminates_both_terminate_terminates)]
fn any_terminates(stmts: &[StmtRecord], row: u32, depth: usize) -> bool
    ensures { TellsStmtsWithin is_terminated_list stmts.now row depth result }
{
    any_of_row(
        stmts,
        row,
        |at|
            ensures { TellsStmtWithin is_terminated stmts.entry.now at depth result }
        { terminates(stmts, at, depth) },
    )
}

// Whether a statement declares a name for its list alone.
pub fn statement_cares_about_scope(stmts: &[StmtRecord], at: u32) -> bool
    ensures { TellsStmt statement_cares_about_scope stmts.now at result }
{
    matches!(
        record_at(stmts, at).kind,
        StatementKind::Declaration(DeclarationKind::Let | DeclarationKind::Const)
    )
}

// Whether any statement of a list does.
pub fn any_cares_about_scope(stmts: &[StmtRecord], row: u32) -> bool
    ensures { TellsStmts any_cares_about_scope stmts.now row result }
{
    any_of_row(stmts, row, |at| statement_cares_about_scope(stmts, at))
}

// Whether a list has a break that would leave the switch around it.
pub fn has_nested_break(stmts: &[StmtRecord], row: u32) -> bool
    ensures { TellsStmts has_nested_break_in_list stmts.now row result }
{
    any_breaks(stmts, row, stmts.len())
}

// Whether a statement has one, not deeper than `depth`.
#[cycle(any_breaks_breaks)]
fn breaks(stmts: &[StmtRecord], at: u32, depth: usize) -> bool
    ensures { TellsStmtWithin has_nested_break stmts.now at depth result }
{
    let Some(left) = depth.checked_sub(1) else {
        return false;
    };
    let stmt = record_at(stmts, at);
    match stmt.kind {
        StatementKind::Break => true,
        StatementKind::If => any_breaks(stmts, stmt.stmts, left),
        StatementKind::Block => any_breaks(stmts, stmt.stmts, left),
        _ => false,
    }
}

// Whether any statement of a row has one, not deeper than `depth`.
#[cycle(any_breaks_breaks)]
fn any_breaks(stmts: &[StmtRecord], row: u32, depth: usize) -> bool
    ensures { TellsStmtsWithin has_nested_break_in_list stmts.now row depth result }
{
    any_of_row(
        stmts,
        row,
        |at|
            ensures { TellsStmtWithin has_nested_break stmts.entry.now at depth result }
        { breaks(stmts, at, depth) },
    )
}
