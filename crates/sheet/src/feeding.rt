// Feeding: bytes are judged one after another, and the tables hold what was taken.
// The tables that are written come as slices: of a struct of them each contract would have to say besides that they
// are the same slices afterwards, and as long.
ghost use Rattle.std.specs.Prelude.{◌≡◌};
ghost use Rattle.records.specs.Readable.{tables};
ghost use Rattle.sheet.specs.Calls.{sizes_of, Feeds, ReadsTaken};

use crate::limits::sizes_fit;
use faults::{ReadFault, SheetFault};
use lending::draft_held;
use reading::{Taken, feed_bytes};
use records::{DeclRecord, Draft, ExprRecord, Lent, StmtRecord};

// The draft handed on, how many bytes were taken, and why no more.
pub struct Fed {
    pub draft: Draft,
    pub taken: usize,
    pub answer: Result<(), ReadFault>,
}

// Feeds bytes to a draft, up to the first that is refused.
pub fn feed(
    draft: Draft,
    exprs: &mut [ExprRecord],
    stmts: &mut [StmtRecord],
    decls: &mut [DeclRecord],
    marks: &mut [u8],
    bytes: &[u8],
) -> Fed
    ensures fed { Feeds (sizes_of (tables exprs.old stmts.old decls.old) marks.old) (tables exprs.old stmts.old decls.old) draft marks.old bytes.now result (tables exprs.new stmts.new decls.new) marks.new }
    ensures spelled { ReadsTaken (tables exprs.old stmts.old decls.old) draft bytes.now }
{
    if !sizes_fit(exprs.len(), stmts.len(), decls.len(), marks.len()) {
        return Fed {
            draft,
            taken: 0,
            answer: Err(ReadFault::from(SheetFault::Sizes)),
        };
    }
    if !draft_held(
        &draft,
        Lent {
            exprs,
            stmts,
            decls,
        },
        marks,
    ) {
        return Fed {
            draft,
            taken: 0,
            answer: Err(ReadFault::from(SheetFault::NotHeld)),
        };
    }
    let mut draft = draft;
    let Taken { count, answer } = feed_bytes(&mut draft, exprs, stmts, decls, bytes);
    Fed {
        draft,
        taken: count,
        answer,
    }
}
