// Starting: a fresh draft with every record spare.
// The tables that are written come as slices: of a struct of them each contract would have to say besides that they
// are the same slices afterwards, and as long.
ghost use Rattle.std.specs.Prelude.{◌≡◌};
ghost use Rattle.records.specs.Readable.{tables};
ghost use Rattle.sheet.specs.Calls.{sizes_of, Starts};

use crate::limits::sizes_fit;
use faults::SheetFault;
use lending::clear;
use pool::{NOWHERE, Pool};
use records::{DeclRecord, Draft, ExprRecord, Pools, Stack, Stage, StmtRecord};
use script::Awaiting;

const NO_ITEMS: Stack = Stack {
    top: NOWHERE,
    count: 0,
};

// Makes every record of the tables spare, whatever stands in them.
pub fn start(
    exprs: &mut [ExprRecord],
    stmts: &mut [StmtRecord],
    decls: &mut [DeclRecord],
    marks: &mut [u8],
) -> Result<Draft, SheetFault>
    ensures { Starts (sizes_of (tables exprs.old stmts.old decls.old) marks.old) result (tables exprs.old stmts.old decls.old) marks.old (tables exprs.new stmts.new decls.new) marks.new }
{
    if !sizes_fit(exprs.len(), stmts.len(), decls.len(), marks.len()) {
        return Err(SheetFault::Sizes);
    }
    clear(marks);
    let for_exprs = Pool::start(exprs)?;
    let for_stmts = Pool::start(stmts)?;
    let for_decls = Pool::start(decls)?;
    Ok(Draft {
        stage: Stage::Reading(Awaiting::Command),
        exprs: NO_ITEMS,
        stmts: NO_ITEMS,
        decls: NO_ITEMS,
        pools: Pools {
            exprs: for_exprs,
            stmts: for_stmts,
            decls: for_decls,
        },
    })
}
