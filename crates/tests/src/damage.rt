// Damaged copies of good sheets, and tables that were changed between calls.
use crate::steps::*;
use script::{ExpressionKind, StatementKind};
use sheet::{Draft, ExprRecord, StmtRecord};
use std::alloc::Global;
use std::process::Abort;
use std::test::Fail;
use tables::{Tables, end_draft, end_whole};

const OUTPUT: usize = 32;

// A sheet that breaks off has no body yet; the draft goes on where it broke off.
#[test]
fn broken_off_sheets_have_no_body(rt: HostRuntime) -> Result<(), Fail> {
    let mut tables = small_tables(rt.alloc())?;
    for bytes in [&[0x3f, 0, 0, 0], CALLS, DECLARED] {
        for at in 0..bytes.len() {
            break_off(&rt, &mut tables, bytes, at)?;
        }
    }
    Ok(())
}

fn break_off(rt: &impl Abort, tables: &mut Tables, bytes: &[u8], at: usize) -> Result<(), Fail> {
    let (front, back) = bytes.split_at_checked(at).ok_or("no such place")?;
    let mut out = [0; OUTPUT];
    let draft = start(rt, tables)?;
    let draft = feed_all(rt, tables, draft, front)?;
    let draft = unclosed(rt, tables, draft, 10)?;
    let draft = feed_all(rt, tables, draft, back)?;
    finish(rt, tables, draft, &mut out, bytes)
}

// What becomes of `CALLS` with ff at each place: the bytes taken and the refusal's number, if one is refused.
const CHANGED: [(usize, Option<u8>); 12] = [
    (0, Some(4)),
    (12, None),
    (2, Some(6)),
    (3, Some(4)),
    (4, Some(4)),
    (12, None),
    (6, Some(6)),
    (7, Some(4)),
    (8, Some(4)),
    (9, Some(5)),
    (11, Some(6)),
    (11, Some(6)),
];

#[test]
fn changed_bytes_are_refused_or_kept(rt: HostRuntime) -> Result<(), Fail> {
    let mut tables = small_tables(rt.alloc())?;
    for (at, (taken, number)) in CHANGED.iter().enumerate() {
        change(&rt, rt.alloc(), &mut tables, at, *taken, *number)?;
    }
    Ok(())
}

fn change(
    rt: &impl Abort,
    heap: Global,
    tables: &mut Tables,
    at: usize,
    taken: usize,
    number: Option<u8>,
) -> Result<(), Fail> {
    let mut bytes = CALLS.to_vec(heap)?;
    if let Some(byte) = bytes.get_mut(at) {
        *byte = 0xff;
    }
    let mut out = [0; OUTPUT];
    let draft = start(rt, tables)?;
    let told = Told {
        taken,
        number,
        table: None,
    };
    let draft = feed(rt, tables, draft, &bytes, told)?;
    if number.is_none() {
        return finish(rt, tables, draft, &mut out, &bytes);
    }
    let draft = unclosed(rt, tables, draft, 10)?;
    end_draft(draft);
    Ok(())
}

// Each link of a sheet that fills its tables, and a kind of each table, is spoilt before each call and mended after it.
#[test]
fn spoilt_tables_are_refused(rt: HostRuntime) -> Result<(), Fail> {
    let mut tables = Tables::new(rt.alloc(), DECLARED_SIZES)?;
    for at in [0, 1] {
        spoil_and_mend(
            &rt,
            &mut tables,
            |tables| change_at(&mut tables.exprs, at, |record| record.first ^= 1),
        )?;
        spoil_and_mend(
            &rt,
            &mut tables,
            |tables| change_at(&mut tables.exprs, at, |record| record.next ^= 1),
        )?;
        spoil_and_mend(
            &rt,
            &mut tables,
            |tables| change_at(&mut tables.stmts, at, |record| record.exprs ^= 1),
        )?;
        spoil_and_mend(
            &rt,
            &mut tables,
            |tables| change_at(&mut tables.stmts, at, |record| record.stmts ^= 1),
        )?;
        spoil_and_mend(
            &rt,
            &mut tables,
            |tables| change_at(&mut tables.stmts, at, |record| record.decls ^= 1),
        )?;
        spoil_and_mend(
            &rt,
            &mut tables,
            |tables| change_at(&mut tables.stmts, at, |record| record.next ^= 1),
        )?;
        spoil_and_mend(
            &rt,
            &mut tables,
            |tables| change_at(&mut tables.decls, at, |record| record.value ^= 1),
        )?;
        spoil_and_mend(
            &rt,
            &mut tables,
            |tables| change_at(&mut tables.decls, at, |record| record.next ^= 1),
        )?;
    }
    spoil_and_mend(
        &rt,
        &mut tables,
        |tables| change_at(&mut tables.exprs, 1, change_expr_kind),
    )?;
    spoil_and_mend(
        &rt,
        &mut tables,
        |tables| change_at(&mut tables.stmts, 1, change_stmt_kind),
    )
}

// A sheet whose tables are changed before each call; the same change mends them.
fn spoil_and_mend<C: Fn(&mut Tables)>(
    rt: &impl Abort,
    tables: &mut Tables,
    change: C,
) -> Result<(), Fail>
    requires { C.IsAlwaysCallable change }
{
    let (front, back) = DECLARED
        .split_at_checked(DECLARED.len() - 1)
        .ok_or("no such place")?;
    let mut out = [0; OUTPUT];
    let draft = start(rt, tables)?;
    let draft = feed_all(rt, tables, draft, front)?;
    change(tables);
    let draft = feed(rt, tables, draft, back, Told::refused(0, 2))?;
    change(tables);
    let draft = feed_all(rt, tables, draft, back)?;
    change(tables);
    let draft = unclosed(rt, tables, draft, 2)?;
    change(tables);
    let whole = close(rt, tables, draft)?;
    change(tables);
    let whole = unwritten(rt, tables, whole, &mut out, 2)?;
    change(tables);
    let whole = write(rt, tables, whole, &mut out, DECLARED)?;
    end_whole(whole);
    Ok(())
}

fn change_at<R, C: FnOnce(&mut R) + Drop>(records: &mut [R], at: usize, change: C)
    requires { C.IsAlwaysCallable change }
{
    if let Some(record) = records.get_mut(at) {
        change(record);
    }
}

// A kind into another of the same table, and back.
fn change_expr_kind(record: &mut ExprRecord) {
    record.kind = match record.kind {
        ExpressionKind::Name(name) => ExpressionKind::Assignment(name),
        ExpressionKind::Assignment(name) => ExpressionKind::Name(name),
        kind => kind,
    };
}

fn change_stmt_kind(record: &mut StmtRecord) {
    record.kind = match record.kind {
        StatementKind::Expression => StatementKind::Empty,
        StatementKind::Empty => StatementKind::Expression,
        kind => kind,
    };
}

// A draft with a top or a count that the tables do not bear out: each is spoilt, and mended by the same change.
#[test]
fn spoilt_drafts_are_refused(rt: HostRuntime) -> Result<(), Fail> {
    let mut tables = small_tables(rt.alloc())?;
    spoil_draft(&rt, &mut tables, |draft| draft.exprs.top ^= 1)?;
    spoil_draft(&rt, &mut tables, |draft| draft.exprs.count ^= 1)?;
    spoil_draft(&rt, &mut tables, |draft| draft.stmts.top ^= 1)?;
    spoil_draft(&rt, &mut tables, |draft| draft.stmts.count ^= 1)?;
    spoil_draft(&rt, &mut tables, |draft| draft.decls.top ^= 1)?;
    spoil_draft(&rt, &mut tables, |draft| draft.decls.count ^= 1)?;
    spoil_draft(&rt, &mut tables, |draft| draft.pools.exprs.head ^= 1)?;
    spoil_draft(&rt, &mut tables, |draft| draft.pools.exprs.count ^= 1)?;
    spoil_draft(&rt, &mut tables, |draft| draft.pools.stmts.head ^= 1)?;
    spoil_draft(&rt, &mut tables, |draft| draft.pools.stmts.count ^= 1)?;
    spoil_draft(&rt, &mut tables, |draft| draft.pools.decls.head ^= 1)?;
    spoil_draft(&rt, &mut tables, |draft| draft.pools.decls.count ^= 1)
}

fn spoil_draft<C: Fn(&mut Draft)>(
    rt: &impl Abort,
    tables: &mut Tables,
    change: C,
) -> Result<(), Fail>
    requires { C.IsAlwaysCallable change }
{
    let mut out = [0; OUTPUT];
    let mut draft = start(rt, tables)?;
    change(&mut draft);
    let draft = unclosed(rt, tables, draft, 2)?;
    let mut draft = feed(rt, tables, draft, DECLARED, Told::refused(0, 2))?;
    change(&mut draft);
    let draft = feed_all(rt, tables, draft, DECLARED)?;
    finish(rt, tables, draft, &mut out, DECLARED)
}

// Tables with a record fewer than the sheet began with, and with one more.
#[test]
fn other_tables_are_refused(rt: HostRuntime) -> Result<(), Fail> {
    let mut tables = small_tables(rt.alloc())?;
    let mut out = [0; OUTPUT];
    tables.marks.push(0)?;
    let draft = start(&rt, &mut tables)?;
    let last = tables.stmts.pop();
    let draft = feed(&rt, &mut tables, draft, DECLARED, Told::refused(0, 2))?;
    add(&mut tables, last);
    let draft = feed_all(&rt, &mut tables, draft, DECLARED)?;
    add(&mut tables, last);
    let draft = unclosed(&rt, &mut tables, draft, 2)?;
    tables.stmts.pop();
    finish(&rt, &mut tables, draft, &mut out, DECLARED)
}

fn add(tables: &mut Tables, record: Option<StmtRecord>) {
    if let Some(record) = record {
        let _ = tables.stmts.push(record);
    }
}
