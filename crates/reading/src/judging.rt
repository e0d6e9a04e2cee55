// Judging: bytes are judged one after another, and the tables hold what was taken.
// The tables that are written come as slices: of a struct of them each contract would have to say besides that they
// are the same slices afterwards, and as long.
ghost use Rattle.std.specs.Prelude.{◌≡◌, length};
ghost use Rattle.script.specs.Judge.{Model, judge, judge_all, settled};
ghost use Rattle.script.specs.Stacks.{perform};
ghost use Rattle.reading.specs.Making.{Listed};
ghost use Rattle.records.specs.Owned.{Limited};
ghost use Rattle.records.specs.Readable.{tables};
ghost use Rattle.records.specs.Holds.{Holds, Reads};
ghost use Rattle.reading.specs.Judged.{Judged, Stepped, FedAs};

use crate::build::{put_body, put_declarator, put_expr, put_stmt};
use crate::making::{Making, made_by};
use crate::reader::{Step, read_byte};
use faults::ReadFault;
use records::{DeclRecord, Draft, ExprRecord, Stage, StmtRecord};
use script::Command;

// How many bytes were taken, and why no more. The count is told beside a fault too.
#[derive(Clone, Copy)]
pub struct Taken {
    pub count: usize,
    pub answer: Result<(), ReadFault>,
}

// Performs a whole command: its parts come off the stacks, and what it makes goes on one of them.
fn perform(
    draft: &mut Draft,
    exprs: &mut [ExprRecord],
    stmts: &mut [StmtRecord],
    decls: &mut [DeclRecord],
    command: Command,
) -> Result<(), ReadFault>
    requires held { (m : Model) × Holds (tables exprs.old stmts.old decls.old) draft.old m }
    requires limited { Limited (tables exprs.old stmts.old decls.old) }
    ensures { (m : Model) → Holds (tables exprs.old stmts.old decls.old) draft.old m → Reads m → Listed command → Judged result (settled (perform command m.stacks) m.spares) (tables exprs.old stmts.old decls.old) draft.old (tables exprs.new stmts.new decls.new) draft.new }
{
    match made_by(command) {
        Making::Expr { kind, parts } => put_expr(draft, exprs, kind, parts),
        Making::Decl { name, parts } => put_declarator(draft, exprs, decls, name, parts),
        Making::Stmt { kind, parts } => put_stmt(draft, exprs, stmts, decls, kind, parts),
        Making::Body { count } => put_body(draft, stmts, count),
    }
}

// One byte: it is taken, or it is refused and nothing changes.
fn feed_byte(
    draft: &mut Draft,
    exprs: &mut [ExprRecord],
    stmts: &mut [StmtRecord],
    decls: &mut [DeclRecord],
    byte: u8,
) -> Result<(), ReadFault>
    requires held { (m : Model) × Holds (tables exprs.old stmts.old decls.old) draft.old m }
    requires limited { Limited (tables exprs.old stmts.old decls.old) }
    ensures { (m : Model) → Holds (tables exprs.old stmts.old decls.old) draft.old m → Stepped result (judge m byte) (tables exprs.old stmts.old decls.old) draft.old (tables exprs.new stmts.new decls.new) draft.new }
{
    let Stage::Reading(awaiting) = draft.stage else {
        return Err(ReadFault::BodyComplete);
    };
    match read_byte(awaiting, byte)? {
        Step::Await(next) => {
            draft.stage = Stage::Reading(next);
            Ok(())
        }
        Step::Perform(command) => perform(draft, exprs, stmts, decls, command),
    }
}

// Bytes one after another, up to the first that is refused: how many were taken, and why no more.
pub fn feed_bytes(
    draft: &mut Draft,
    exprs: &mut [ExprRecord],
    stmts: &mut [StmtRecord],
    decls: &mut [DeclRecord],
    bytes: &[u8],
) -> Taken
    requires held { (m : Model) × Holds (tables exprs.old stmts.old decls.old) draft.old m }
    requires limited { Limited (tables exprs.old stmts.old decls.old) }
    ensures { (m : Model) → Holds (tables exprs.old stmts.old decls.old) draft.old m → FedAs result (length bytes.now) (judge_all bytes.now m) (tables exprs.new stmts.new decls.new) draft.new }
{
    for (i, byte) in bytes.iter().enumerate() {
        if let Err(fault) = feed_byte(draft, exprs, stmts, decls, *byte) {
            return Taken {
                count: i,
                answer: Err(fault),
            };
        }
    }
    Taken {
        count: bytes.len(),
        answer: Ok(()),
    }
}
