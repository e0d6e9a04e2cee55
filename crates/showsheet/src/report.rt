// What a person is told of a pass.
use sheet::{Copied, ReadFault, Refused, SheetFault, Spared};
use std::io;
use tables::Sizes;

const BYTES_IN_LINE: usize = 16;

// A pass with no refusal: what was taken, the records, the body as text, and the bytes.
pub fn show_passed(
    rt: &HostRuntime,
    sizes: Sizes,
    passed: Copied,
    body: &str,
    written: &[u8],
) -> io::Result<()> {
    println!(rt; "taken: {} bytes", passed.taken)?;
    show_records(rt, sizes, passed.spared)?;
    println!(rt; "\n{body}\n\nwritten: {} bytes", written.len())?;
    show_bytes(rt, written)
}

fn show_records(rt: &HostRuntime, sizes: Sizes, spared: Spared) -> io::Result<()> {
    let Spared {
        exprs,
        stmts,
        decls,
    } = spared;
    println!(rt;
        "expressions: {} used, {exprs} spare\nstatements: {} used, {stmts} spare\ndeclarators: {} used, {decls} spare",
        sizes.exprs.saturating_sub(exprs as usize),
        sizes.stmts.saturating_sub(stmts as usize),
        sizes.decls.saturating_sub(decls as usize)
    )
}

fn show_bytes(rt: &HostRuntime, bytes: &[u8]) -> io::Result<()> {
    for (i, byte) in bytes.iter().enumerate() {
        print!(rt; "{}{byte:02x}", gap(i))?;
    }
    println!(rt; "")
}

// What stands before the byte at a place.
fn gap(at: usize) -> &'static str {
    if at == 0 {
        ""
    } else if at % BYTES_IN_LINE == 0 {
        "\n"
    } else {
        " "
    }
}

// A refusal: its number and meaning, what was taken before it, and the byte that was refused, if one was.
pub fn show_refusal(rt: &HostRuntime, refusal: Refused, bytes: &[u8]) -> io::Result<()> {
    println!(rt;
        "refused {}: {}\ntaken: {} bytes",
        refusal.number(),
        refusal.fault,
        refusal.taken
    )?;
    match refused_byte(refusal, bytes) {
        Some(byte) => println!(rt; "the byte at place {} is {byte:02x}", refusal.taken),
        None => Ok(()),
    }
}

fn refused_byte(refusal: Refused, bytes: &[u8]) -> Option<u8> {
    if is_of_byte(refusal.fault) {
        bytes.get(refusal.taken).copied()
    } else {
        None
    }
}

// Whether one byte was refused, and not a whole call.
fn is_of_byte(fault: ReadFault) -> bool {
    !matches!(
        fault,
        ReadFault::Sheet(
            SheetFault::Sizes | SheetFault::NotHeld | SheetFault::NoBody | SheetFault::ShortOutput
        )
    )
}
