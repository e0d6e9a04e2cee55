// What the newest result is.
ghost use Rattle.jumping.specs.Newest.{TellsIfJump, kind_of};

use crate::jump::Jump;
use moves::record_at;
use pool::NOWHERE;
use records::StmtRecord;
use script::StatementKind;

// Whether the newest result is an `if` without an alternate that holds the same jump: `if (t) throw e`, `if (t) return e` or `if (t) return`.
pub fn is_if_jump(jump: Jump, stmts: &[StmtRecord], results: u32) -> bool
    ensures { TellsIfJump (kind_of jump) stmts.now results result }
{
    let last = record_at(stmts, results);
    if last.kind != StatementKind::If {
        return false;
    }
    let inner = record_at(stmts, last.stmts);
    inner.kind == jump.kind() && inner.next == NOWHERE
}
