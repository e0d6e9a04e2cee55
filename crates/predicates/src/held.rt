// What holds a list of statements, and which jump may go at its end.
ghost use Rattle.rules.specs.Jumps.{can_remove_termination_statement};
ghost use Rattle.moves.specs.Read.{TellsStmt};
ghost use Rattle.predicates.specs.Held.{holder_of};

use moves::record_at;
use pool::NOWHERE;
use records::StmtRecord;
use script::StatementKind;

// The body; anything that no word below is for; the block that is a loop's body; the same of a do-while whose test is known to be false.
#[derive(Clone, Copy, PartialEq, Eq)]
pub enum Holder {
    Body,
    Other,
    LoopBlock,
    OnceBlock,
}

// Whether a jump may go at the end of the list.
pub fn can_remove_termination_statement(holder: Holder, stmts: &[StmtRecord], at: u32) -> bool
    ensures { TellsStmt (can_remove_termination_statement (holder_of holder)) stmts.now at result }
{
    let stmt = record_at(stmts, at);
    match stmt.kind {
        StatementKind::Return => stmt.exprs == NOWHERE && holder == Holder::Body,
        StatementKind::Break => holder == Holder::OnceBlock,
        StatementKind::Continue => matches!(holder, Holder::LoopBlock | Holder::OnceBlock),
        _ => false,
    }
}
