// What the rules look at in a statement.
ghost use Rattle.rules.specs.Ifs.{branch?, empty?};
ghost use Rattle.rules.specs.Folding.{is_if};
ghost use Rattle.branching.specs.Views.{Shows, branch_kind, is_nothing};

use moves::record_at;
use pool::NOWHERE;
use records::StmtRecord;
use script::StatementKind;

// A branch of an `if`: an expression, an `if` without or with an alternate, or another statement.
#[derive(Clone, Copy)]
pub enum Branch {
    Expression,
    LoneIf,
    FullIf,
    Other,
}

// Whether the statement is empty or a block of none.
pub fn is_empty(stmts: &[StmtRecord], at: u32) -> bool
    ensures { Shows (λ x. is_nothing (empty? x)) stmts.now at result }
{
    let stmt = record_at(stmts, at);
    match stmt.kind {
        StatementKind::Empty => true,
        StatementKind::Block => stmt.stmts == NOWHERE,
        _ => false,
    }
}

// Which branch the statement is.
pub fn branch_of(stmts: &[StmtRecord], at: u32) -> Branch
    ensures { Shows (λ x. branch_kind (branch? x)) stmts.now at result }
{
    let stmt = record_at(stmts, at);
    match stmt.kind {
        StatementKind::Expression => Branch::Expression,
        StatementKind::If if record_at(stmts, stmt.stmts).next == NOWHERE => Branch::LoneIf,
        StatementKind::If => Branch::FullIf,
        _ => Branch::Other,
    }
}

// Whether the statement is an `if`.
pub fn is_if(stmts: &[StmtRecord], at: u32) -> bool
    ensures { Shows (λ x. is_if (branch? x)) stmts.now at result }
{
    matches!(record_at(stmts, at).kind, StatementKind::If)
}
