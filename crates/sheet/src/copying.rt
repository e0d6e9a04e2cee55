// Copying: the whole task in one call. Bytes are fed to a fresh draft, which is closed and written, up to the first refusal.
// The tables that are written come as slices: of a struct of them each contract would have to say besides that they
// are the same slices afterwards, and as long.
ghost use Rattle.std.specs.Prelude.{◌≡◌, true, length, nat_le};
ghost use Rattle.script.specs.Tree.{Stmts};
ghost use Rattle.script.specs.Judge.{Model, fresh, judge_all};
ghost use Rattle.script.specs.Written.{body_bytes};
ghost use Rattle.records.specs.Lent.{heap};
ghost use Rattle.records.specs.Readable.{tables};
ghost use Rattle.records.specs.Holds.{Holds, HoldsWhole, counted};
ghost use Rattle.faults.specs.Faults.{read_number};
ghost use Rattle.sheet.specs.Calls.{sizes_of, lengths, cleared};
ghost use Rattle.sheet.specs.Copies.{CopiesBody, CopiesStage, Copies, Spells};

use crate::closing::{Unclosed, close};
use crate::feeding::{Fed, feed};
use crate::output::{Wrote, write};
use crate::starting::start;
use faults::ReadFault;
use records::{DeclRecord, Draft, ExprRecord, Lent, StmtRecord, Whole};

// How many records of each table are left spare.
#[derive(Clone, Copy)]
pub struct Spared {
    pub exprs: u32,
    pub stmts: u32,
    pub decls: u32,
}

// What a copying with no refusal came to.
#[derive(Clone, Copy)]
pub struct Copied {
    pub taken: usize,
    pub written: usize,
    pub spared: Spared,
}

// The first refusal, and how many bytes were taken before it.
#[derive(Clone, Copy)]
pub struct Refused {
    pub fault: ReadFault,
    pub taken: usize,
}

impl Refused {
    // The refusal's number, which is for people to be told: code goes by the fault.
    pub fn number(self) -> u8
        ensures { result ≡ read_number self.fault }
    {
        self.fault.number()
    }
}

// Writes a whole sheet and ends it.
fn write_and_end(
    whole: Whole,
    tables: Lent,
    marks: &mut [u8],
    taken: usize,
    out: &mut [u8],
) -> Result<Copied, Refused>
    requires { true ≡ sizes_of (heap tables) marks.old }
    ensures copied { (body : Stmts) → HoldsWhole (heap tables.entry) whole body → CopiesBody (nat_le (length (body_bytes body)) (length out.old)) (body_bytes body) (counted whole.pools) taken out.old result out.new }
    ensures cleared { marks.new ≡ cleared marks.old }
{
    let Wrote { whole, answer } = write(whole, tables, marks, out);
    let Whole { body: _, pools } = whole;
    match answer {
        Ok(written) => Ok(Copied {
            taken,
            written,
            spared: Spared {
                exprs: pools.exprs.count,
                stmts: pools.stmts.count,
                decls: pools.decls.count,
            },
        }),
        Err(fault) => Err(Refused {
            fault: ReadFault::Sheet(fault),
            taken,
        }),
    }
}

// Closes a draft that has a body and writes it.
fn close_and_write(
    draft: Draft,
    tables: Lent,
    marks: &mut [u8],
    taken: usize,
    out: &mut [u8],
) -> Result<Copied, Refused>
    requires { true ≡ sizes_of (heap tables) marks.old }
    ensures copied { (m : Model) → Holds (heap tables.entry) draft m → CopiesStage m.stage m.spares taken out.old result out.new }
    ensures cleared { marks.new ≡ cleared marks.old }
{
    match close(draft, tables, marks) {
        Ok(whole) => write_and_end(whole, tables, marks, taken, out),
        Err(Unclosed { draft, fault }) => {
            let Draft {
                stage: _,
                exprs: _,
                stmts: _,
                decls: _,
                pools: _,
            } = draft;
            Err(Refused {
                fault: ReadFault::Sheet(fault),
                taken,
            })
        }
    }
}

// Copies the sheet that the bytes spell to the output, parts in source order; what is behind them stays as it was.
pub fn copy(
    exprs: &mut [ExprRecord],
    stmts: &mut [StmtRecord],
    decls: &mut [DeclRecord],
    marks: &mut [u8],
    bytes: &[u8],
    out: &mut [u8],
) -> Result<Copied, Refused>
    ensures copied { Copies (sizes_of (tables exprs.old stmts.old decls.old) marks.old) (lengths (tables exprs.old stmts.old decls.old)) bytes.now marks.old out.old result marks.new out.new }
    ensures spelled { Spells result (judge_all bytes.now (fresh (lengths (tables exprs.old stmts.old decls.old)))) bytes.now out.new }
{
    let draft = match start(exprs, stmts, decls, marks) {
        Ok(draft) => draft,
        Err(fault) => return Err(Refused {
            fault: ReadFault::Sheet(fault),
            taken: 0,
        }),
    };
    let Fed {
        draft,
        taken,
        answer,
    } = feed(draft, exprs, stmts, decls, marks, bytes);
    match answer {
        Ok(()) => close_and_write(
            draft,
            Lent {
                exprs,
                stmts,
                decls,
            },
            marks,
            taken,
            out,
        ),
        Err(fault) => {
            let Draft {
                stage: _,
                exprs: _,
                stmts: _,
                decls: _,
                pools: _,
            } = draft;
            Err(Refused { fault, taken })
        }
    }
}
