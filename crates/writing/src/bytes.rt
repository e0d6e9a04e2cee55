// The bytes of a body, written from the tables: parts before their command, in source order.
// Bytes behind the end of the output are left out, so that writing into no output at all tells how many there are.
ghost use Rattle.std.specs.Prelude.{◌≡◌, ◌≤◌, ◌∷◌, ◌++◌, map, length, ◌≢◌};
ghost use Rattle.pool.specs.Chain.{nowhere, Chain};
ghost use Rattle.script.specs.Sound.{SoundStmts};
ghost use Rattle.script.specs.Tree.{Stmts};
ghost use Rattle.script.specs.Written.{body_bytes};
ghost use Rattle.records.specs.Heap.{expr_at, stmt_at, decl_at};
ghost use Rattle.records.specs.Rows.{Row, At};
ghost use Rattle.records.specs.Lent.{heap};
ghost use Rattle.records.specs.Readable.{Readable};
ghost use Rattle.records.specs.Embedding.{stmts_row};
ghost use Rattle.writing.specs.Bytes.{expr_spelling, decl_spelling, stmt_spelling, body_spelling, Puts, Countable};
ghost use Rattle.writing.specs.Bytes.{first_bytes, stmts_row_bytes, parts_bytes, command_bytes, around_bytes, body_row_bytes, placed, WrittenOut};
ghost use Rattle.records.specs.Owned.{Limited};
ghost use Rattle.writing.specs.Bytes.{exprs_row_bytes, first_expr_bytes, decls_row_bytes, first_decl_bytes, Writable, Writes};

use pool::{Linked, NOWHERE};
use records::{Lent, along};
use script::{ExpressionKind, ForInit, StatementKind};

// Puts one byte at a place; the answer is the place behind it.
fn put(out: &mut [u8], at: usize, byte: u8) -> usize
    ensures { Puts (λ rest. byte ∷ rest) out.old at out.new result }
{
    if at < out.len() {
        out[at] = byte;
    }
    at.saturating_add(1)
}

// Puts bytes from a place on; the answer is the place behind them.
fn put_all(out: &mut [u8], at: usize, bytes: &[u8]) -> usize
    ensures { Puts (λ rest. bytes.now ++ rest) out.old at out.new result }
{
    let mut end = at;
    for byte in bytes {
        end = put(out, end, *byte);
    }
    end
}

// Puts the command of an expression with so many parts; one byte tells the parts of a call.
fn put_expr(out: &mut [u8], at: usize, kind: ExpressionKind, parts: u16) -> usize
    ensures { Puts (expr_spelling kind parts) out.old at out.new result }
{
    let [low, high] = parts.to_le_bytes();
    match kind {
        ExpressionKind::Number(bits) => {
            let [a, b, c, d] = bits.to_le_bytes();
            put_all(out, at, &[0x01, a, b, c, d])
        }
        ExpressionKind::Word(word) => put_all(out, at, &[0x02, u8::from(word)]),
        ExpressionKind::Name(name) => put_all(out, at, &[0x03, name]),
        ExpressionKind::Assignment(name) => put_all(out, at, &[0x04, name]),
        ExpressionKind::Call(number) => put_all(out, at, &[0x05, number, low]),
        ExpressionKind::Sequence => put_all(out, at, &[0x06, low, high]),
        ExpressionKind::Conditional => put(out, at, 0x07),
        ExpressionKind::Logical(operator) => put_all(out, at, &[0x08, u8::from(operator)]),
        ExpressionKind::Not => put(out, at, 0x09),
        ExpressionKind::Void => put(out, at, 0x0a),
        ExpressionKind::StrictEquality => put(out, at, 0x0b),
    }
}

// Puts the command of a declarator whose value has so many expressions, one or none.
fn put_decl(out: &mut [u8], at: usize, name: u8, values: u16) -> usize
    ensures { Puts (decl_spelling name values) out.old at out.new result }
{
    put_all(out, at, &[if values == 0 { 0x10 } else { 0x11 }, name])
}

// Puts the command of a statement with so many expressions, statements and declarators.
fn put_stmt(
    out: &mut [u8],
    at: usize,
    kind: StatementKind,
    exprs: u16,
    stmts: u16,
    decls: u16,
) -> usize
    ensures { Puts (stmt_spelling kind exprs stmts decls) out.old at out.new result }
{
    let [low, high] = stmts.to_le_bytes();
    match kind {
        StatementKind::Empty => put(out, at, 0x20),
        StatementKind::Expression => put(out, at, 0x21),
        StatementKind::Declaration(kind) => {
            let [low, high] = decls.to_le_bytes();
            put_all(out, at, &[0x22, u8::from(kind), low, high])
        }
        StatementKind::Return => put(out, at, if exprs == 0 { 0x23 } else { 0x24 }),
        StatementKind::Throw => put(out, at, 0x25),
        StatementKind::If => put(out, at, if stmts <= 1 { 0x26 } else { 0x27 }),
        StatementKind::Block => put_all(out, at, &[0x28, low, high]),
        StatementKind::While => put(out, at, 0x29),
        StatementKind::DoWhile => put(out, at, 0x2a),
        StatementKind::For(head) => put_all(out, at, &[0x2b, u8::from(head)]),
        StatementKind::Switch => put_all(out, at, &[0x30, low, high]),
        StatementKind::Case => put_all(out, at, &[0x2f, u8::from(exprs != 0), low, high]),
        StatementKind::Break => put(out, at, 0x2d),
        StatementKind::Continue => put(out, at, 0x2e),
    }
}

// Puts the command of a body of so many statements.
fn put_body(out: &mut [u8], at: usize, stmts: u16) -> usize
    ensures { Puts (body_spelling stmts) out.old at out.new result }
{
    let [low, high] = stmts.to_le_bytes();
    put_all(out, at, &[0x3f, 0, low, high])
}

// How many records a row has.
fn count<R: Linked + Copy>(table: &[R], row: u32) -> u16
    requires short { length table.now ≤ nowhere }
    requires countable { Countable (map R.link table.now) row }
    ensures { Chain (map R.link table.now) row result }
{
    along(table, row).count() as u16
}

// Writes a row of expressions. Each table's rows have a loop of their own: one loop with a closure is no plainer,
// since each closure has to require that its record is there and below the row, and the loop asks that of each call.
// The loops keep a place alone, and the tables are passed by reference: every level of a deep sheet is a call of these
// functions, and what they keep there is what the sheet takes of the stack.
#[cycle(write_expr_write_exprs)]
fn write_exprs(tables: &Lent, row: u32, out: &mut [u8], from: usize) -> usize
    requires { Writable (heap tables.now) (expr_at row) }
    ensures { Writes exprs_row_bytes (heap tables.now) (expr_at row) out.old from out.new result }
{
    let mut at = row;
    let mut end = from;
    while at != NOWHERE {
        end = write_expr(tables, at, out, end);
        at = tables.exprs[at as usize].next;
    }
    end
}

// Writes one expression: its parts, then its command.
#[cycle(write_expr_write_exprs)]
fn write_expr(tables: &Lent, at: u32, out: &mut [u8], from: usize) -> usize
    requires some { at ≢ nowhere }
    requires writable { Writable (heap tables.now) (expr_at at) }
    ensures { Writes first_expr_bytes (heap tables.now) (expr_at at) out.old from out.new result }
{
    let expr = tables.exprs[at as usize];
    let end = write_exprs(tables, expr.first, out, from);
    let parts = count(tables.exprs, expr.first);
    put_expr(out, end, expr.kind, parts)
}

// Writes a row of declarators.
fn write_decls(tables: &Lent, row: u32, out: &mut [u8], from: usize) -> usize
    requires { Writable (heap tables.now) (decl_at row) }
    ensures { Writes decls_row_bytes (heap tables.now) (decl_at row) out.old from out.new result }
{
    let mut at = row;
    let mut end = from;
    while at != NOWHERE {
        end = write_decl(tables, at, out, end);
        at = tables.decls[at as usize].next;
    }
    end
}

// Writes one declarator: its value, if any, then its command.
fn write_decl(tables: &Lent, at: u32, out: &mut [u8], from: usize) -> usize
    requires some { at ≢ nowhere }
    requires writable { Writable (heap tables.now) (decl_at at) }
    ensures { Writes first_decl_bytes (heap tables.now) (decl_at at) out.old from out.new result }
{
    let decl = tables.decls[at as usize];
    let end = write_exprs(tables, decl.value, out, from);
    let values = count(tables.exprs, decl.value);
    put_decl(out, end, decl.name, values)
}

// Writes a row of statements.
#[cycle(write_around_write_parts_write_stmt_write_stmts)]
fn write_stmts(tables: &Lent, row: u32, out: &mut [u8], from: usize) -> usize
    requires { Writable (heap tables.now) (stmt_at row) }
    ensures { Writes stmts_row_bytes (heap tables.now) (stmt_at row) out.old from out.new result }
{
    let mut at = row;
    let mut end = from;
    while at != NOWHERE {
        end = write_stmt(tables, at, out, end);
        at = tables.stmts[at as usize].next;
    }
    end
}

// Writes one statement: its parts, then its command.
#[cycle(write_around_write_parts_write_stmt_write_stmts)]
fn write_stmt(tables: &Lent, at: u32, out: &mut [u8], from: usize) -> usize
    requires some { at ≢ nowhere }
    requires writable { Writable (heap tables.now) (stmt_at at) }
    ensures { Writes first_bytes (heap tables.now) (stmt_at at) out.old from out.new result }
{
    let end = write_parts(tables, at, out, from);
    write_command(tables, at, out, end)
}

// Writes the parts of a statement in source order.
#[cycle(write_around_write_parts_write_stmt_write_stmts)]
fn write_parts(tables: &Lent, at: u32, out: &mut [u8], from: usize) -> usize
    requires some { at ≢ nowhere }
    requires writable { Writable (heap tables.now) (stmt_at at) }
    ensures { Writes parts_bytes (heap tables.now) (stmt_at at) out.old from out.new result }
{
    let stmt = tables.stmts[at as usize];
    match stmt.kind {
        StatementKind::DoWhile => {
            let end = write_stmts(tables, stmt.stmts, out, from);
            write_exprs(tables, stmt.exprs, out, end)
        }
        StatementKind::For(head) if head.init == ForInit::Declaration => {
            write_around(tables, at, out, from)
        }
        _ => {
            let end = write_exprs(tables, stmt.exprs, out, from);
            let end = write_decls(tables, stmt.decls, out, end);
            write_stmts(tables, stmt.stmts, out, end)
        }
    }
}

// Writes a statement's first statement, its expressions, and its other statements.
#[cycle(write_around_write_parts_write_stmt_write_stmts)]
fn write_around(tables: &Lent, at: u32, out: &mut [u8], from: usize) -> usize
    requires some { at ≢ nowhere }
    requires writable { Writable (heap tables.now) (stmt_at at) }
    ensures { Writes around_bytes (heap tables.now) (stmt_at at) out.old from out.new result }
{
    let stmt = tables.stmts[at as usize];
    let first = stmt.stmts;
    if first == NOWHERE {
        return write_exprs(tables, stmt.exprs, out, from);
    }
    let end = write_stmt(tables, first, out, from);
    let end = write_exprs(tables, stmt.exprs, out, end);
    write_stmts(tables, tables.stmts[first as usize].next, out, end)
}

// Writes the command of a statement.
fn write_command(tables: &Lent, at: u32, out: &mut [u8], from: usize) -> usize
    requires some { at ≢ nowhere }
    requires writable { Writable (heap tables.now) (stmt_at at) }
    ensures { Writes command_bytes (heap tables.now) (stmt_at at) out.old from out.new result }
{
    let stmt = tables.stmts[at as usize];
    let exprs = count(tables.exprs, stmt.exprs);
    let stmts = count(tables.stmts, stmt.stmts);
    let decls = count(tables.decls, stmt.decls);
    put_stmt(out, from, stmt.kind, exprs, stmts, decls)
}

// Writes a body and its command from the start of the output.
fn write_whole(tables: &Lent, body: u32, out: &mut [u8]) -> usize
    requires { Writable (heap tables.now) (stmt_at body) }
    ensures { (row : Row) → At (heap tables.now) (stmt_at body) row → placed out.old 0 (body_row_bytes row) ≡ (out.new, result) }
{
    let end = write_stmts(tables, body, out, 0);
    let stmts = count(tables.stmts, body);
    put_body(out, end, stmts)
}

// How many bytes a body and its command take.
fn bytes_length(tables: &Lent, body: u32) -> usize
    requires { Writable (heap tables.now) (stmt_at body) }
    ensures { (row : Row) → At (heap tables.now) (stmt_at body) row → result ≡ length (body_row_bytes row) }
{
    let mut none = [0u8; 0];
    write_whole(tables, body, &mut none)
}

// Writes a body at the start of the output, if it is long enough; the answer is how many bytes there are.
pub fn write_body(tables: Lent, body: u32, out: &mut [u8]) -> Option<usize>
    requires readable { Readable (heap tables) (stmt_at body) }
    requires limited { Limited (heap tables) }
    ensures { (ss : Stmts) → At (heap tables.entry) (stmt_at body) (stmts_row ss) → SoundStmts ss → WrittenOut result (body_bytes ss) out.old out.new }
{
    if bytes_length(&tables, body) > out.len() {
        return None;
    }
    Some(write_whole(&tables, body, out))
}
