// Shows a sheet to a person: it is read from standard input, fed, closed and written, and told as text.
//
// The sample in `stdin` is this script of an album viewer. Its names are n0, n1 and so on in the order of their declarations,
// and its calls c0, c1 and so on in the order in which they are first met. The bytes tell the test of `do` before its body;
// what is written has them in the order of the source.
//
//     const count = pictures();
//     let style = chosenFrame();
//     var shown = 0, skipped = 0, last;
//     if (count === 0) { message(0); return null; }
//     for (let i = 0; isBefore(i, count); i = next(i)) {
//         const picture = load(i);
//         if (picture === null) { skipped = next(skipped); continue; }
//         let wide = isWide(picture), date = takenOn(picture) ?? 0;
//         if (wide) crop(picture, 0, 120, 1600, 900); else crop(picture, 200, -40, 800, 1200);
//         switch (style) {
//             case 0: break;
//             case 1: border(picture, 12, 255); break;
//             case 2: { const tint = wide ? 30 : 60; border(picture, 24, tint); shade(picture, !date, -8); break; }
//             case 3:
//             default: border(picture, 4, 128);
//         }
//         if (date && !wide) rotate(picture, 90);
//         caption(picture, date || void 0);
//         show(picture), shown = next(shown), last = picture;
//         if (shown === limit()) break;
//     }
//     var tries = 0;
//     while (isWaiting()) { tries = next(tries); if (tries === 50) throw tries; }
//     do { turnPage(last); } while (isHeld());
//     for (; isHeld(); ) ;
//     if (skipped) message(1, skipped); else if (last) { caption(last, true); } else ;
//     return shown === count ? true : shown;
#![tactic(auto)]

mod report;

use crate::report::{show_passed, show_refusal};
use listings::listing;
use std::io::Read;
use tables::{Sizes, Tables};

const SIZES: Sizes = Sizes {
    exprs: 4096,
    stmts: 512,
    decls: 512,
};

const OUTPUT: usize = 49152;

// Passes the bytes through the tables into the output, and tells what came of it.
fn show(rt: &HostRuntime, tables: &mut Tables, bytes: &[u8], out: &mut [u8]) -> anyhow::Result<()> {
    let passed = match tables.pass(bytes, out) {
        Ok(passed) => passed,
        Err(refusal) => return Ok(show_refusal(rt, refusal, bytes)?),
    };
    let written = out.get(0..passed.written).unwrap_or(&[]);
    let body = listing(rt.alloc(), written)?;
    Ok(show_passed(rt, SIZES, passed, &body, written)?)
}

fn run(rt: &HostRuntime) -> anyhow::Result<()> {
    let heap = rt.alloc();
    let mut bytes = Vec::new(heap);
    rt.stdin().read_to_end(&mut bytes)?;
    let mut tables = Tables::new(heap, SIZES)?;
    let mut out = vec![in heap; 0; OUTPUT]?;
    show(rt, &mut tables, &bytes, &mut out)
}

fn main(rt: HostRuntime) -> anyhow::Result<()> {
    run(&rt)
}
