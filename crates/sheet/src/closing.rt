// Closing: a draft with a body becomes a whole sheet.
ghost use Rattle.std.specs.Prelude.{◌≡◌};
ghost use Rattle.records.specs.Lent.{heap};
ghost use Rattle.sheet.specs.Calls.{sizes_of, Closes};

use crate::limits::sizes_fit;
use faults::SheetFault;
use lending::draft_held;
use records::{Draft, Lent, Stage, Whole};

// A draft that was not closed, and why.
pub struct Unclosed {
    pub draft: Draft,
    pub fault: SheetFault,
}

// Makes a whole sheet of a draft with a body; any other draft is given back.
pub fn close(draft: Draft, tables: Lent, marks: &mut [u8]) -> Result<Whole, Unclosed>
    ensures { Closes (sizes_of (heap tables.entry) marks.old) (heap tables.entry) draft marks.old result marks.new }
{
    if !sizes_fit(
        tables.exprs.len(),
        tables.stmts.len(),
        tables.decls.len(),
        marks.len(),
    ) {
        return Err(Unclosed {
            draft,
            fault: SheetFault::Sizes,
        });
    }
    if !draft_held(&draft, tables, marks) {
        return Err(Unclosed {
            draft,
            fault: SheetFault::NotHeld,
        });
    }
    match draft.stage {
        Stage::Reading(_) => Err(Unclosed {
            draft,
            fault: SheetFault::NoBody,
        }),
        Stage::Complete(body) => Ok(whole_of(draft, body)),
    }
}

// Takes a draft apart.
fn whole_of(draft: Draft, body: u32) -> Whole
    ensures { result ≡ record { body = body; pools = draft.pools } }
{
    let Draft {
        stage: _,
        exprs: _,
        stmts: _,
        decls: _,
        pools,
    } = draft;
    Whole { body, pools }
}
