// The deepest sheets that the limits allow: each is fed, closed and written in tables of full size, and has to come back byte for byte.
#![tactic(auto)]

use sheet::{DECL_LIMIT, EXPR_LIMIT, STMT_LIMIT};
use std::alloc::{AllocError, Global};
use tables::{Sizes, Tables};

const OUTPUT: usize = 49152;

// `!` over `!` and so on over a name, as many expressions as a table holds, in one statement.
fn nested_expressions(heap: Global) -> Result<Vec<u8>, AllocError> {
    let mut bytes = Vec::from_slice(heap, &[0x03, 0x00])?;
    for _ in 1..EXPR_LIMIT {
        bytes.push(0x09)?;
    }
    bytes.extend_from_slice(&[0x21, 0x3f, 0x00, 0x01, 0x00])?;
    Ok(bytes)
}

// A block in a block and so on, as many statements as a table holds; the innermost is empty.
fn nested_blocks(heap: Global) -> Result<Vec<u8>, AllocError> {
    let mut bytes = Vec::from_slice(heap, &[0x28, 0x00, 0x00])?;
    for _ in 1..STMT_LIMIT {
        bytes.extend_from_slice(&[0x28, 0x01, 0x00])?;
    }
    bytes.extend_from_slice(&[0x3f, 0x00, 0x01, 0x00])?;
    Ok(bytes)
}

fn show(rt: &HostRuntime, what: &str, tables: &mut Tables, bytes: &[u8]) -> anyhow::Result<()> {
    let mut out = vec![in rt.alloc(); 0; OUTPUT]?;
    match tables.pass(bytes, &mut out) {
        Ok(passed) => {
            let written = passed.written;
            let equal = if out.get(0..written) == Some(bytes) {
                "equal"
            } else {
                "altered"
            };
            println!(rt; "{what}: {written} bytes came back {equal}")?;
        }
        Err(refusal) => println!(rt; "{what}: refused {}", refusal.number())?,
    }
    Ok(())
}

fn run(rt: &HostRuntime) -> anyhow::Result<()> {
    let heap = rt.alloc();
    let sizes = Sizes {
        exprs: EXPR_LIMIT,
        stmts: STMT_LIMIT,
        decls: DECL_LIMIT,
    };
    let mut tables = Tables::new(heap, sizes)?;
    show(
        rt,
        "32768 nested expressions",
        &mut tables,
        &nested_expressions(heap)?,
    )?;
    show(rt, "4096 nested blocks", &mut tables, &nested_blocks(heap)?)
}

fn main(rt: HostRuntime) -> anyhow::Result<()> {
    run(&rt)
}
