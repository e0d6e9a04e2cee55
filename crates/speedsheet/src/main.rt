// How long feed, close and write take at four sizes of a sheet, each twice the one before.
// Times vary from run to run, so they go to standard error.
#![tactic(auto)]

use anyhow::anyhow;
use sheet::{Fed, Unclosed, Wrote};
use std::alloc::{AllocError, Global};
use std::io;
use std::num::nearest_u64_to_f64;
use std::time::{Duration, Instant};
use tables::{Sizes, Tables, end_draft, end_whole};

const STATEMENTS: [u16; 4] = [512, 1024, 2048, 4096];

// Of so many runs the shortest time counts.
const RUNS: usize = 9;

// `c0(1, n2);`
const STATEMENT: [u8; 11] = [
    0x01, 0x01, 0x00, 0x00, 0x00, 0x03, 0x02, 0x05, 0x00, 0x02, 0x21,
];

// A sheet of so many statements.
fn sheet_of(heap: Global, statements: u16) -> Result<Vec<u8>, AllocError> {
    let mut bytes = Vec::new(heap);
    for _ in 0..statements {
        bytes.extend_from_slice(&STATEMENT)?;
    }
    let [low, high] = statements.to_le_bytes();
    bytes.extend_from_slice(&[0x3f, 0x00, low, high])?;
    Ok(bytes)
}

// Tables that such a sheet fills: each statement has three expressions.
fn tables_for(heap: Global, statements: u16) -> Result<Tables, AllocError> {
    let stmts = usize::from(statements);
    Tables::new(
        heap,
        Sizes {
            exprs: 3 * stmts,
            stmts,
            decls: 0,
        },
    )
}

// How long each call took.
#[derive(Clone, Copy)]
struct Times {
    feed: Duration,
    close: Duration,
    write: Duration,
}

impl Times {
    fn shorter(self, other: Times) -> Times {
        Times {
            feed: self.feed.min(other.feed),
            close: self.close.min(other.close),
            write: self.write.min(other.write),
        }
    }
}

// One pass with the clock read between the calls.
fn time_once(
    rt: &HostRuntime,
    tables: &mut Tables,
    bytes: &[u8],
    out: &mut [u8],
) -> anyhow::Result<Times> {
    let Ok(draft) = tables.start() else {
        return Err(anyhow!("start was refused"));
    };
    let before = Instant::now(rt);
    let Fed {
        draft,
        taken: _,
        answer: _,
    } = tables.feed(draft, bytes);
    let fed = Instant::now(rt);
    let whole = match tables.close(draft) {
        Ok(whole) => whole,
        Err(Unclosed { draft, fault: _ }) => {
            end_draft(draft);
            return Err(anyhow!("the sheet was refused"));
        }
    };
    let closed = Instant::now(rt);
    let Wrote { whole, answer } = tables.write(whole, out);
    let written = Instant::now(rt);
    end_whole(whole);
    if answer.is_err() {
        return Err(anyhow!("the output is too short"));
    }
    let (fed, closed) = (fed?, closed?);
    Ok(Times {
        feed: fed.duration_since(before?),
        close: closed.duration_since(fed),
        write: written?.duration_since(closed),
    })
}

fn time(rt: &HostRuntime, statements: u16, bytes: &[u8]) -> anyhow::Result<Times> {
    let mut tables = tables_for(rt.alloc(), statements)?;
    let mut out = vec![in rt.alloc(); 0; bytes.len()]?;
    let mut shortest = time_once(rt, &mut tables, bytes, &mut out)?;
    for _ in 1..RUNS {
        shortest = shortest.shorter(time_once(rt, &mut tables, bytes, &mut out)?);
    }
    Ok(shortest)
}

// Nanoseconds for each byte.
#[derive(Clone, Copy)]
struct Rates {
    feed: f64,
    close: f64,
    write: f64,
}

impl Rates {
    fn new(times: Times, bytes: usize) -> Rates {
        Rates {
            feed: rate(times.feed, bytes),
            close: rate(times.close, bytes),
            write: rate(times.write, bytes),
        }
    }
}

fn rate(time: Duration, bytes: usize) -> f64 {
    time.as_secs_f64() * 1e9 / nearest_u64_to_f64(bytes as u64)
}

fn show(rt: &HostRuntime, call: &str, rate: f64, before: Option<f64>) -> io::Result<()> {
    match before {
        Some(before) => eprintln!(rt;
            "  {call}: {rate:.2} ns a byte, {:.2} times that of the size before",
            rate / before
        ),
        None => eprintln!(rt; "  {call}: {rate:.2} ns a byte"),
    }
}

fn show_all(rt: &HostRuntime, rates: Rates, before: Option<Rates>) -> io::Result<()> {
    show(rt, "feed", rates.feed, before.map(|before| before.feed))?;
    show(rt, "close", rates.close, before.map(|before| before.close))?;
    show(rt, "write", rates.write, before.map(|before| before.write))
}

fn run(rt: &HostRuntime) -> anyhow::Result<()> {
    let mut before = None;
    for statements in STATEMENTS {
        let bytes = sheet_of(rt.alloc(), statements)?;
        let rates = Rates::new(time(rt, statements, &bytes)?, bytes.len());
        eprintln!(rt; "{statements} statements, {} bytes", bytes.len())?;
        show_all(rt, rates, before)?;
        before = Some(rates);
    }
    println!(rt; "measured {} sizes", STATEMENTS.len())?;
    Ok(())
}

fn main(rt: HostRuntime) -> anyhow::Result<()> {
    run(&rt)
}
