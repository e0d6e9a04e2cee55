// Tables, marks, counts and outputs at their limits, and one over or short of them.
use crate::steps::*;
use script::Table;
use sheet::{DECL_LIMIT, EXPR_LIMIT, STMT_LIMIT};
use std::alloc::Global;
use std::process::Abort;
use std::test::Fail;
use tables::{Sizes, Tables, end_draft, end_whole};

// Tables that are a record or two short for `DECLARED`: which one, and the bytes taken before that tells.
struct Short {
    sizes: Sizes,
    table: Table,
    taken: usize,
}

const SHORT: &[Short] = &[
    Short {
        sizes: Sizes {
            exprs: 1,
            stmts: 2,
            decls: 2,
        },
        table: Table::Expressions,
        taken: 14,
    },
    Short {
        sizes: Sizes {
            exprs: 0,
            stmts: 0,
            decls: 0,
        },
        table: Table::Expressions,
        taken: 4,
    },
    Short {
        sizes: Sizes {
            exprs: 2,
            stmts: 1,
            decls: 2,
        },
        table: Table::Statements,
        taken: 15,
    },
    Short {
        sizes: Sizes {
            exprs: 2,
            stmts: 0,
            decls: 2,
        },
        table: Table::Statements,
        taken: 12,
    },
    Short {
        sizes: Sizes {
            exprs: 2,
            stmts: 2,
            decls: 1,
        },
        table: Table::Declarators,
        taken: 8,
    },
    Short {
        sizes: Sizes {
            exprs: 2,
            stmts: 2,
            decls: 0,
        },
        table: Table::Declarators,
        taken: 6,
    },
];

#[test]
fn short_tables_are_named(rt: HostRuntime) -> Result<(), Fail> {
    for case in SHORT {
        let mut tables = Tables::new(rt.alloc(), case.sizes)?;
        let draft = start(&rt, &mut tables)?;
        let draft = feed(
            &rt,
            &mut tables,
            draft,
            DECLARED,
            Told::short(case.taken, case.table),
        )?;
        let draft = unclosed(&rt, &mut tables, draft, 10)?;
        end_draft(draft);
    }
    Ok(())
}

// Too few items, and a part that is misplaced, are told before a table that is short.
#[test]
fn short_tables_are_told_last(rt: HostRuntime) -> Result<(), Fail> {
    let mut tables = Tables::new(
        rt.alloc(),
        Sizes {
            exprs: 1,
            stmts: 1,
            decls: 0,
        },
    )?;
    let draft = start(&rt, &mut tables)?;
    let draft = feed(
        &rt,
        &mut tables,
        draft,
        &[0x03, 0, 0x0b],
        Told::refused(2, 6),
    )?;
    let draft = feed(
        &rt,
        &mut tables,
        draft,
        &[0x2f, 0, 0, 0, 0x26],
        Told::refused(4, 7),
    )?;
    let draft = feed(
        &rt,
        &mut tables,
        draft,
        &[0x30, 1, 0],
        Told::short(2, Table::Statements),
    )?;
    end_draft(draft);
    Ok(())
}

// Tables that are just full, and an output that is just long enough, one byte short, and longer.
#[test]
fn full_tables_and_outputs_suffice(rt: HostRuntime) -> Result<(), Fail> {
    let mut tables = Tables::new(rt.alloc(), DECLARED_SIZES)?;
    let mut exact = [0; 20];
    let mut short = [0; 19];
    let mut longer = [0; 32];
    let draft = start(&rt, &mut tables)?;
    let draft = feed_all(&rt, &mut tables, draft, DECLARED)?;
    let whole = close(&rt, &mut tables, draft)?;
    let whole = unwritten(&rt, &mut tables, whole, &mut short, 11)?;
    let whole = unwritten(&rt, &mut tables, whole, &mut [], 11)?;
    let whole = write(&rt, &mut tables, whole, &mut exact, DECLARED)?;
    let whole = write(&rt, &mut tables, whole, &mut longer, DECLARED)?;
    end_whole(whole);
    Ok(())
}

// One mark too few at each call; with the mark back the sheet goes on.
#[test]
fn missing_marks_are_refused(rt: HostRuntime) -> Result<(), Fail> {
    let mut tables = Tables::new(rt.alloc(), DECLARED_SIZES)?;
    let mut out = [0; 32];
    tables.marks.pop();
    unstarted(&rt, &mut tables, 1)?;
    tables.marks.push(0)?;
    let draft = start(&rt, &mut tables)?;
    tables.marks.pop();
    let draft = feed(&rt, &mut tables, draft, DECLARED, Told::refused(0, 1))?;
    let draft = unclosed(&rt, &mut tables, draft, 1)?;
    let _ = tables.marks.push(0);
    let draft = feed_all(&rt, &mut tables, draft, DECLARED)?;
    let whole = close(&rt, &mut tables, draft)?;
    tables.marks.pop();
    let whole = unwritten(&rt, &mut tables, whole, &mut out, 1)?;
    let _ = tables.marks.push(0);
    let whole = write(&rt, &mut tables, whole, &mut out, DECLARED)?;
    end_whole(whole);
    Ok(())
}

// Each table at its limit, and each one over it.
#[test]
fn long_tables_are_refused(rt: HostRuntime) -> Result<(), Fail> {
    let mut full = Tables::new(
        rt.alloc(),
        Sizes {
            exprs: EXPR_LIMIT,
            stmts: STMT_LIMIT,
            decls: DECL_LIMIT,
        },
    )?;
    let draft = start(&rt, &mut full)?;
    end_draft(draft);
    for sizes in [
        Sizes {
            exprs: EXPR_LIMIT + 1,
            stmts: 1,
            decls: 1,
        },
        Sizes {
            exprs: 1,
            stmts: STMT_LIMIT + 1,
            decls: 1,
        },
        Sizes {
            exprs: 1,
            stmts: 1,
            decls: DECL_LIMIT + 1,
        },
    ] {
        let mut tables = Tables::new(rt.alloc(), sizes)?;
        unstarted(&rt, &mut tables, 1)?;
    }
    Ok(())
}

// So many items, and then bytes that end the sheet, in tables that are just full.
struct Counted {
    item: &'static [u8],
    count: usize,
    rest: &'static [u8],
    sizes: Sizes,
}

const COUNTED: &[Counted] = &[
    // A call with 255 arguments, the most there can be.
    Counted {
        item: &[0x03, 7],
        count: 255,
        rest: &[0x05, 0, 255, 0x21, 0x3f, 0, 1, 0],
        sizes: Sizes {
            exprs: 256,
            stmts: 1,
            decls: 0,
        },
    },
    // Counts whose high byte is not 0.
    Counted {
        item: &[0x03, 7],
        count: 256,
        rest: &[0x06, 0, 1, 0x21, 0x3f, 0, 1, 0],
        sizes: Sizes {
            exprs: 257,
            stmts: 1,
            decls: 0,
        },
    },
    Counted {
        item: &[0x10, 7],
        count: 258,
        rest: &[0x22, 0, 2, 1, 0x3f, 0, 1, 0],
        sizes: Sizes {
            exprs: 0,
            stmts: 1,
            decls: 258,
        },
    },
    Counted {
        item: &[0x20],
        count: 256,
        rest: &[0x28, 0, 1, 0x3f, 0, 1, 0],
        sizes: Sizes {
            exprs: 0,
            stmts: 257,
            decls: 0,
        },
    },
    Counted {
        item: &[0x20],
        count: 257,
        rest: &[0x3f, 0, 1, 1],
        sizes: Sizes {
            exprs: 0,
            stmts: 257,
            decls: 0,
        },
    },
];

#[test]
fn large_counts_are_taken(rt: HostRuntime) -> Result<(), Fail> {
    for case in COUNTED {
        count_up(&rt, rt.alloc(), case)?;
    }
    Ok(())
}

fn count_up(rt: &impl Abort, heap: Global, case: &Counted) -> Result<(), Fail> {
    let mut bytes = Vec::new(heap);
    for _ in 0..case.count {
        bytes.extend_from_slice(case.item)?;
    }
    bytes.extend_from_slice(case.rest)?;
    let mut out = vec![in heap; 0; bytes.len()]?;
    let mut tables = Tables::new(heap, case.sizes)?;
    let draft = start(rt, &mut tables)?;
    let draft = feed_all(rt, &mut tables, draft, &bytes)?;
    finish(rt, &mut tables, draft, &mut out, &bytes)
}
