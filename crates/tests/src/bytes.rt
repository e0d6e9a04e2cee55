// Bytes that are refused, and what they leave.
use crate::steps::*;
use std::alloc::Global;
use std::process::Abort;
use std::test::Fail;
use tables::{Tables, end_draft};

const OUTPUT: usize = 64;

// A byte that is refused behind some others, and bytes that go on in its place to the end of a sheet.
#[derive(Clone, Copy)]
struct Refused {
    number: u8,
    before: &'static [u8],
    byte: u8,
    after: &'static [u8],
}

const REFUSED: &[Refused] = &[
    // A word, an operator, a declaration, a case and a body of no known kind.
    Refused {
        number: 5,
        before: &[0x02],
        byte: 3,
        after: &[0, 0x21, 0x3f, 0, 1, 0],
    },
    Refused {
        number: 5,
        before: &[0x03, 0, 0x03, 1, 0x08],
        byte: 3,
        after: &[2, 0x21, 0x3f, 0, 1, 0],
    },
    Refused {
        number: 5,
        before: &[0x10, 0, 0x22],
        byte: 3,
        after: &[0, 1, 0, 0x3f, 0, 1, 0],
    },
    Refused {
        number: 5,
        before: &[0x03, 0, 0x20, 0x2f],
        byte: 2,
        after: &[0, 1, 0, 0x30, 1, 0, 0x3f, 0, 1, 0],
    },
    Refused {
        number: 5,
        before: &[0x3f],
        byte: 1,
        after: &[0, 0, 0],
    },
    // A `for` with both kinds of init, or with a bit that means nothing.
    Refused {
        number: 5,
        before: &[0x20, 0x2b],
        byte: 0x03,
        after: &[0, 0x3f, 0, 1, 0],
    },
    Refused {
        number: 5,
        before: &[0x20, 0x2b],
        byte: 0x0f,
        after: &[0, 0x3f, 0, 1, 0],
    },
    Refused {
        number: 5,
        before: &[0x20, 0x2b],
        byte: 0x10,
        after: &[0, 0x3f, 0, 1, 0],
    },
    // Too few expressions.
    Refused {
        number: 6,
        before: &[0x05, 0],
        byte: 1,
        after: &[0, 0x21, 0x3f, 0, 1, 0],
    },
    Refused {
        number: 6,
        before: &[0x03, 0, 0x03, 1, 0x06, 2],
        byte: 1,
        after: &[0, 0x21, 0x3f, 0, 1, 0],
    },
    Refused {
        number: 6,
        before: &[0x03, 0, 0x03, 1],
        byte: 0x07,
        after: &[0x0b, 0x21, 0x3f, 0, 1, 0],
    },
    Refused {
        number: 6,
        before: &[0x03, 0],
        byte: 0x0b,
        after: &[0x21, 0x3f, 0, 1, 0],
    },
    Refused {
        number: 6,
        before: &[0x20],
        byte: 0x2a,
        after: &[0x3f, 0, 1, 0],
    },
    Refused {
        number: 6,
        before: &[0x20, 0x2b],
        byte: 0x01,
        after: &[0, 0x3f, 0, 1, 0],
    },
    Refused {
        number: 6,
        before: &[0x03, 0, 0x20, 0x2b],
        byte: 0x0c,
        after: &[0x04, 0x3f, 0, 1, 0],
    },
    // Too few statements.
    Refused {
        number: 6,
        before: &[0x03, 0],
        byte: 0x29,
        after: &[0x21, 0x3f, 0, 1, 0],
    },
    Refused {
        number: 6,
        before: &[0x03, 0, 0x20],
        byte: 0x27,
        after: &[0x26, 0x3f, 0, 1, 0],
    },
    Refused {
        number: 6,
        before: &[0x20, 0x2b],
        byte: 0x02,
        after: &[0, 0x3f, 0, 1, 0],
    },
    Refused {
        number: 6,
        before: &[0x20, 0x28, 1],
        byte: 1,
        after: &[0, 0x3f, 0, 1, 0],
    },
    Refused {
        number: 6,
        before: &[0x03, 0, 0x2f, 0, 0],
        byte: 1,
        after: &[0, 0x30, 1, 0, 0x3f, 0, 1, 0],
    },
    Refused {
        number: 6,
        before: &[0x03, 0, 0x2f, 0, 0, 0, 0x30, 1],
        byte: 1,
        after: &[0, 0x3f, 0, 1, 0],
    },
    Refused {
        number: 6,
        before: &[0x3f, 0, 0],
        byte: 1,
        after: &[0],
    },
    // Too few declarators.
    Refused {
        number: 6,
        before: &[0x10, 0, 0x22, 0, 1],
        byte: 1,
        after: &[0, 0x3f, 0, 1, 0],
    },
    // A case as a branch or a loop body.
    Refused {
        number: 7,
        before: &[0x03, 0, 0x2f, 0, 0, 0],
        byte: 0x26,
        after: &[0x30, 1, 0, 0x3f, 0, 1, 0],
    },
    Refused {
        number: 7,
        before: &[0x20, 0x03, 0, 0x2f, 0, 0, 0],
        byte: 0x27,
        after: &[0x30, 1, 0, 0x3f, 0, 2, 0],
    },
    Refused {
        number: 7,
        before: &[0x03, 0, 0x2f, 0, 0, 0],
        byte: 0x29,
        after: &[0x30, 1, 0, 0x3f, 0, 1, 0],
    },
    Refused {
        number: 7,
        before: &[0x03, 0, 0x2f, 0, 0, 0],
        byte: 0x2a,
        after: &[0x30, 1, 0, 0x3f, 0, 1, 0],
    },
    // A let or a const there.
    Refused {
        number: 7,
        before: &[0x10, 0, 0x22, 1, 1, 0, 0x03, 0],
        byte: 0x26,
        after: &[0x21, 0x3f, 0, 2, 0],
    },
    Refused {
        number: 7,
        before: &[0x10, 0, 0x22, 1, 1, 0, 0x20, 0x03, 0],
        byte: 0x27,
        after: &[0x21, 0x3f, 0, 3, 0],
    },
    Refused {
        number: 7,
        before: &[0x02, 0, 0x11, 0, 0x22, 2, 1, 0, 0x03, 0],
        byte: 0x29,
        after: &[0x21, 0x3f, 0, 2, 0],
    },
    // An init that is no declaration.
    Refused {
        number: 7,
        before: &[0x20, 0x20, 0x2b],
        byte: 0x02,
        after: &[0, 0x3f, 0, 2, 0],
    },
];

// A refused byte is not taken, however often it comes, and the draft goes on as if it had not come.
#[test]
fn refused_bytes_leave_the_draft(rt: HostRuntime) -> Result<(), Fail> {
    let mut tables = small_tables(rt.alloc())?;
    for case in REFUSED {
        go_on(&rt, rt.alloc(), &mut tables, *case)?;
    }
    Ok(())
}

fn go_on(rt: &impl Abort, heap: Global, tables: &mut Tables, case: Refused) -> Result<(), Fail> {
    let first = joined(heap, case.before, &[case.byte])?;
    let bytes = joined(heap, case.before, case.after)?;
    let mut out = [0; OUTPUT];
    let draft = start(rt, tables)?;
    let draft = feed(
        rt,
        tables,
        draft,
        &first,
        Told::refused(case.before.len(), case.number),
    )?;
    let draft = feed(
        rt,
        tables,
        draft,
        &[case.byte],
        Told::refused(0, case.number),
    )?;
    let draft = feed_all(rt, tables, draft, case.after)?;
    finish(rt, tables, draft, &mut out, &bytes)
}

// A high byte of a count, a name or the parts of a `for`, with which no small sheet can go on.
#[derive(Clone, Copy)]
struct Stuck {
    number: u8,
    before: &'static [u8],
}

// The refused byte is 0 in each.
const STUCK: &[Stuck] = &[
    // A sequence of one, and of none; a declaration of none.
    Stuck {
        number: 5,
        before: &[0x03, 0, 0x03, 1, 0x06, 1],
    },
    Stuck {
        number: 5,
        before: &[0x03, 0, 0x03, 1, 0x06, 0],
    },
    Stuck {
        number: 5,
        before: &[0x10, 0, 0x22, 0, 0],
    },
    // Too few items; a switch without a value and without cases lacks the value first.
    Stuck {
        number: 6,
        before: &[0x04],
    },
    Stuck {
        number: 6,
        before: &[0x03, 0, 0x08],
    },
    Stuck {
        number: 6,
        before: &[0x11],
    },
    Stuck {
        number: 6,
        before: &[0x22, 0, 1],
    },
    Stuck {
        number: 6,
        before: &[0x28, 1],
    },
    Stuck {
        number: 6,
        before: &[0x2b],
    },
    Stuck {
        number: 6,
        before: &[0x2f, 1, 0],
    },
    Stuck {
        number: 6,
        before: &[0x30, 0],
    },
    Stuck {
        number: 6,
        before: &[0x3f, 0, 1],
    },
    // A switch without cases, with another statement, or with a second default.
    Stuck {
        number: 7,
        before: &[0x03, 0, 0x30, 0],
    },
    Stuck {
        number: 7,
        before: &[0x03, 0, 0x20, 0x30, 1],
    },
    Stuck {
        number: 7,
        before: &[0x03, 0, 0x2f, 0, 0, 0, 0x2f, 0, 0, 0, 0x30, 2],
    },
    // A case in a block, in a case or in a body.
    Stuck {
        number: 7,
        before: &[0x2f, 0, 0, 0, 0x28, 1],
    },
    Stuck {
        number: 7,
        before: &[0x2f, 0, 0, 0, 0x2f, 0, 1],
    },
    Stuck {
        number: 7,
        before: &[0x03, 0, 0x2f, 0, 0, 0, 0x3f, 0, 1],
    },
    // A let or a case as the body of a `for`, and a const without a value.
    Stuck {
        number: 7,
        before: &[0x10, 0, 0x22, 1, 1, 0, 0x2b],
    },
    Stuck {
        number: 7,
        before: &[0x2f, 0, 0, 0, 0x2b],
    },
    Stuck {
        number: 7,
        before: &[0x02, 0, 0x11, 0, 0x10, 1, 0x22, 2, 2],
    },
    // A body that leaves an expression, a statement, a case or a declarator.
    Stuck {
        number: 8,
        before: &[0x03, 0, 0x3f, 0, 0],
    },
    Stuck {
        number: 8,
        before: &[0x20, 0x20, 0x3f, 0, 1],
    },
    Stuck {
        number: 8,
        before: &[0x2f, 0, 0, 0, 0x20, 0x3f, 0, 1],
    },
    Stuck {
        number: 8,
        before: &[0x10, 0, 0x3f, 0, 0],
    },
];

// The draft is given back without a body.
#[test]
fn refused_last_bytes_leave_no_body(rt: HostRuntime) -> Result<(), Fail> {
    let mut tables = small_tables(rt.alloc())?;
    for case in STUCK {
        stay(&rt, rt.alloc(), &mut tables, *case)?;
    }
    Ok(())
}

fn stay(rt: &impl Abort, heap: Global, tables: &mut Tables, case: Stuck) -> Result<(), Fail> {
    let first = joined(heap, case.before, &[0])?;
    let draft = start(rt, tables)?;
    let draft = feed(
        rt,
        tables,
        draft,
        &first,
        Told::refused(case.before.len(), case.number),
    )?;
    let draft = feed(rt, tables, draft, &[0], Told::refused(0, case.number))?;
    let draft = unclosed(rt, tables, draft, 10)?;
    end_draft(draft);
    Ok(())
}

// What becomes of a first byte: it is taken, lacks its items, or is no command.
fn told_first(byte: u8) -> Told {
    match byte {
        0x01..=0x06 | 0x08 | 0x10 | 0x11 | 0x20 | 0x22 | 0x23 | 0x28 | 0x2b | 0x2d..=0x30 | 0x3f =>
            Told::all(&[byte]),
        0x07 | 0x09..=0x0b | 0x21 | 0x24..=0x27 | 0x29 | 0x2a => Told::refused(0, 6),
        _ => Told::refused(0, 4),
    }
}

#[test]
fn first_bytes_are_commands(rt: HostRuntime) -> Result<(), Fail> {
    let mut tables = small_tables(rt.alloc())?;
    for byte in 0..=255 {
        let draft = start(&rt, &mut tables)?;
        let draft = feed(&rt, &mut tables, draft, &[byte], told_first(byte))?;
        end_draft(draft);
    }
    Ok(())
}

#[test]
fn bytes_behind_a_body_are_refused(rt: HostRuntime) -> Result<(), Fail> {
    let mut tables = small_tables(rt.alloc())?;
    for byte in [0x00, 0x20, 0x3f, 0xff] {
        go_beyond(&rt, rt.alloc(), &mut tables, byte)?;
    }
    Ok(())
}

fn go_beyond(rt: &impl Abort, heap: Global, tables: &mut Tables, byte: u8) -> Result<(), Fail> {
    let first = joined(heap, CALLS, &[byte])?;
    let mut out = [0; OUTPUT];
    let draft = start(rt, tables)?;
    let draft = feed(rt, tables, draft, &first, Told::refused(CALLS.len(), 3))?;
    let draft = feed(rt, tables, draft, &[byte], Told::refused(0, 3))?;
    let draft = feed_all(rt, tables, draft, &[])?;
    finish(rt, tables, draft, &mut out, CALLS)
}
