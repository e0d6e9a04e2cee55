// The calls as steps of a test: each says what has to come of it, and hands the sheet on.
use pool::PoolFault;
use script::Table;
use sheet::{Draft, Fed, ReadFault, SheetFault, Unclosed, Whole, Wrote};
use std::alloc::{AllocError, Global};
use std::process::Abort;
use std::test::Fail;
use tables::{Sizes, Tables, end_draft, end_whole};

// `f(); g();`
pub const CALLS: &[u8] = &[0x05, 0, 0, 0x21, 0x05, 1, 0, 0x21, 0x3f, 0, 2, 0];

// `let n0 = 1, n1; n0;`: two records of each table.
pub const DECLARED: &[u8] = &[
    0x01, 1, 0, 0, 0, 0x11, 0, 0x10, 1, 0x22, 1, 2, 0, 0x03, 0, 0x21, 0x3f, 0, 2, 0,
];

pub const DECLARED_SIZES: Sizes = Sizes {
    exprs: 2,
    stmts: 2,
    decls: 2,
};

// What an output and the marks hold before each call.
const BLANK: u8 = 0xaa;

const SOILED: u8 = 0x5a;

// What a feed told: the bytes it took, its refusal's number if it had one, and the table that was short of spares.
#[derive(Clone, Copy, Debug, PartialEq, Eq)]
pub struct Told {
    pub taken: usize,
    pub number: Option<u8>,
    pub table: Option<Table>,
}

impl Told {
    pub fn all(bytes: &[u8]) -> Told {
        Told {
            taken: bytes.len(),
            number: None,
            table: None,
        }
    }

    pub fn refused(taken: usize, number: u8) -> Told {
        Told {
            taken,
            number: Some(number),
            table: None,
        }
    }

    pub fn short(taken: usize, table: Table) -> Told {
        Told {
            taken,
            number: Some(9),
            table: Some(table),
        }
    }

    fn of(taken: usize, answer: Result<(), ReadFault>) -> Told {
        let fault = answer.err();
        Told {
            taken,
            number: fault.map(|fault| fault.number()),
            table: fault.and_then(short_table),
        }
    }
}

fn short_table(fault: ReadFault) -> Option<Table> {
    match fault {
        ReadFault::Sheet(SheetFault::Spares(PoolFault::Empty(table))) => Some(table),
        _ => None,
    }
}

// Tables with room for each of the small sheets here.
pub fn small_tables(heap: Global) -> Result<Tables, AllocError> {
    Tables::new(
        heap,
        Sizes {
            exprs: 8,
            stmts: 8,
            decls: 8,
        },
    )
}

pub fn joined(heap: Global, front: &[u8], back: &[u8]) -> Result<Vec<u8>, AllocError> {
    let mut bytes = Vec::from_slice(heap, front)?;
    bytes.extend_from_slice(back)?;
    Ok(bytes)
}

pub fn start(rt: &impl Abort, tables: &mut Tables) -> Result<Draft, Fail> {
    soil(tables);
    match tables.start() {
        Ok(draft) => keep(draft, end_draft, check_marks(rt, tables, None)),
        Err(fault) => Err(Fail::new(format_args!("start was refused by {}", fault.number()))),
    }
}

// A start that has to be refused by this number and to leave fresh tables as they were.
pub fn unstarted(rt: &impl Abort, tables: &mut Tables, number: u8) -> Result<(), Fail> {
    soil(tables);
    match tables.start() {
        Ok(draft) => {
            end_draft(draft);
            Err(Fail::new("start was not refused"))
        }
        Err(fault) => {
            assert_eq!(rt; fault.number(), number);
            check_marks(rt, tables, Some(number))?;
            assert!(rt; is_fresh(tables), "the tables were changed");
            Ok(())
        }
    }
}

pub fn feed(
    rt: &impl Abort,
    tables: &mut Tables,
    draft: Draft,
    bytes: &[u8],
    told: Told,
) -> Result<Draft, Fail> {
    soil(tables);
    let Fed {
        draft,
        taken,
        answer,
    } = tables.feed(draft, bytes);
    assert_eq!(rt; Told::of(taken, answer), told, "fed {bytes:?}");
    keep(draft, end_draft, check_marks(rt, tables, told.number))
}

pub fn feed_all(
    rt: &impl Abort,
    tables: &mut Tables,
    draft: Draft,
    bytes: &[u8],
) -> Result<Draft, Fail> {
    feed(rt, tables, draft, bytes, Told::all(bytes))
}

pub fn close(rt: &impl Abort, tables: &mut Tables, draft: Draft) -> Result<Whole, Fail> {
    soil(tables);
    match tables.close(draft) {
        Ok(whole) => keep(whole, end_whole, check_marks(rt, tables, None)),
        Err(Unclosed { draft, fault }) => {
            end_draft(draft);
            Err(Fail::new(format_args!("close was refused by {}", fault.number())))
        }
    }
}

// A close that has to be refused by this number.
pub fn unclosed(
    rt: &impl Abort,
    tables: &mut Tables,
    draft: Draft,
    number: u8,
) -> Result<Draft, Fail> {
    soil(tables);
    match tables.close(draft) {
        Ok(whole) => {
            end_whole(whole);
            Err(Fail::new("close was not refused"))
        }
        Err(Unclosed { draft, fault }) => {
            assert_eq!(rt; fault.number(), number);
            keep(draft, end_draft, check_marks(rt, tables, Some(number)))
        }
    }
}

// A write that has to give the bytes and to leave what is behind them.
pub fn write(
    rt: &impl Abort,
    tables: &mut Tables,
    whole: Whole,
    out: &mut [u8],
    bytes: &[u8],
) -> Result<Whole, Fail> {
    soil(tables);
    out.fill(BLANK);
    let Wrote { whole, answer } = tables.write(whole, out);
    assert_eq!(rt; number_of(answer), None);
    let whole = keep(whole, end_whole, check_written(rt, answer, out, bytes))?;
    keep(whole, end_whole, check_marks(rt, tables, None))
}

// A write that has to be refused by this number and to leave the output as it was.
pub fn unwritten(
    rt: &impl Abort,
    tables: &mut Tables,
    whole: Whole,
    out: &mut [u8],
    number: u8,
) -> Result<Whole, Fail> {
    soil(tables);
    out.fill(BLANK);
    let Wrote { whole, answer } = tables.write(whole, out);
    assert_eq!(rt; number_of(answer), Some(number));
    assert!(rt; is_all(out, BLANK), "the output was changed");
    keep(whole, end_whole, check_marks(rt, tables, Some(number)))
}

fn number_of(answer: Result<usize, SheetFault>) -> Option<u8> {
    answer.err().map(|fault| fault.number())
}

fn check_written(
    rt: &impl Abort,
    answer: Result<usize, SheetFault>,
    out: &[u8],
    bytes: &[u8],
) -> Result<(), Fail> {
    assert_eq!(rt; answer.ok(), Some(bytes.len()));
    let Some((front, back)) = out.split_at_checked(bytes.len()) else {
        return Err(Fail::new("the output is shorter than what was written"));
    };
    assert_eq!(rt; front, bytes);
    assert!(rt;
        is_all(back, BLANK),
        "the output was changed behind the bytes"
    );
    Ok(())
}

// Closes a draft, writes it, and ends it.
pub fn finish(
    rt: &impl Abort,
    tables: &mut Tables,
    draft: Draft,
    out: &mut [u8],
    bytes: &[u8],
) -> Result<(), Fail> {
    let whole = close(rt, tables, draft)?;
    let whole = write(rt, tables, whole, out, bytes)?;
    end_whole(whole);
    Ok(())
}

fn soil(tables: &mut Tables) {
    tables.marks.fill(SOILED);
}

// A call clears the marks, but for one that is refused for its sizes.
fn check_marks(rt: &impl Abort, tables: &Tables, number: Option<u8>) -> Result<(), Fail> {
    let left = if number == Some(1) { SOILED } else { 0 };
    assert!(rt;
        is_all(&tables.marks, left),
        "the marks are not as they should be"
    );
    Ok(())
}

// The links of tables that no call has changed are 0.
fn is_fresh(tables: &Tables) -> bool {
    tables.exprs.iter().all(|record| record.next == 0)
        && tables.stmts.iter().all(|record| record.next == 0)
        && tables.decls.iter().all(|record| record.next == 0)
}

fn is_all(bytes: &[u8], value: u8) -> bool {
    bytes.iter().all(|byte| *byte == value)
}

// Hands a draft or a sheet on, unless something was not as it should be: then it is ended.
fn keep<T, E: FnOnce(T) + Drop>(sheet: T, end: E, verdict: Result<(), Fail>) -> Result<T, Fail>
    requires { E.IsAlwaysCallable end }
{
    match verdict {
        Ok(()) => Ok(sheet),
        Err(fail) => {
            end(sheet);
            Err(fail)
        }
    }
}
