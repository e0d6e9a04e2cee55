// Writing: the bytes of a whole sheet.
ghost use Rattle.std.specs.Prelude.{◌≡◌};
ghost use Rattle.records.specs.Lent.{heap};
ghost use Rattle.sheet.specs.Calls.{sizes_of, WritesSheet, ReadsBack};

use crate::limits::sizes_fit;
use faults::SheetFault;
use lending::whole_held;
use records::{Lent, Whole};
use writing::write_body;

// The sheet given back, and how many bytes were written or why none.
pub struct Wrote {
    pub whole: Whole,
    pub answer: Result<usize, SheetFault>,
}

// Writes the bytes of the sheet's body, parts in source order; what is behind them stays as it was.
pub fn write(whole: Whole, tables: Lent, marks: &mut [u8], out: &mut [u8]) -> Wrote
    ensures written { WritesSheet (sizes_of (heap tables.entry) marks.old) (heap tables.entry) whole marks.old out.old result marks.new out.new }
    ensures again { ReadsBack (heap tables.entry) whole }
{
    if !sizes_fit(
        tables.exprs.len(),
        tables.stmts.len(),
        tables.decls.len(),
        marks.len(),
    ) {
        return Wrote {
            whole,
            answer: Err(SheetFault::Sizes),
        };
    }
    if !whole_held(&whole, tables, marks) {
        return Wrote {
            whole,
            answer: Err(SheetFault::NotHeld),
        };
    }
    match write_body(tables, whole.body, out) {
        Some(count) => Wrote {
            whole,
            answer: Ok(count),
        },
        None => Wrote {
            whole,
            answer: Err(SheetFault::ShortOutput),
        },
    }
}
