// Rows that are no longer wanted: every record of the row and of its parts goes back to its pool.
// A record's parts are put in front of what is behind it, so that nothing but the row itself is pending.
// The three loops stay apart: a first record is given back into other tables each time, and one loop over a closure that holds
// those tables would need clauses on what each closure leaves of them, which are longer than the loop.
ghost use Rattle.std.specs.Prelude.{◌≡◌, ℕ, suc, ◌<◌, ◌≤◌, List, [], ◌∷◌, map, length, slice_index};
ghost use Rattle.pool.specs.Chain.{Chain, modify, nowhere};
ghost use Rattle.records.specs.declared.record.DeclRecord.{DeclRecord as DeclEntry};
ghost use Rattle.records.specs.declared.record.ExprRecord.{ExprRecord as ExprEntry};
ghost use Rattle.records.specs.declared.record.Pools.{Pools as PoolEntries};
ghost use Rattle.records.specs.declared.record.StmtRecord.{StmtRecord as StmtEntry};
ghost use Rattle.records.specs.Heap.{Label, decl_at, expr_at, stmt_at};
ghost use Rattle.records.specs.Readable.{tables};
ghost use Rattle.records.specs.Rows.{Row, node};
ghost use Rattle.moves.specs.Front.{in_front, links_on};
ghost use Rattle.moves.specs.Lent.{Makes, SameSlices};
ghost use Rattle.moves.specs.Moved.{Turns};

use crate::cells::{give, record_at};
use crate::links::join_rows;
use crate::tables::Tables;
use pool::NOWHERE;
use records::{DeclRecord, ExprRecord, Pools, StmtRecord};

// Gives back the first expression of a row; its parts come in front of the others.
fn drop_first_expr(exprs: &mut [ExprRecord], pools: &mut Pools, at: u32) -> u32
    ensures { (ss : List StmtEntry) (ds : List DeclEntry) (l : Label) (x y z w : Row) →
        Turns (tables exprs.old ss ds) pools.old (tables exprs.new ss ds) pools.new
        [] ((expr_at at, node l x y z w) ∷ []) ((expr_at result, in_front x w) ∷ []) }
{
    let expr = record_at(exprs, at);
    let row = join_rows(exprs, expr.first, expr.next);
    give(&mut pools.exprs, exprs, at);
    row
}

// Gives back a row of expressions with all their parts.
pub fn drop_expr_row(exprs: &mut [ExprRecord], pools: &mut Pools, row: u32)
    ensures { (ss : List StmtEntry) (ds : List DeclEntry) (r : Row) →
        Turns (tables exprs.old ss ds) pools.old (tables exprs.new ss ds) pools.new
        [] ((expr_at row, r) ∷ []) [] }
{
    let mut at = row;
    for _i in 0..exprs.len() {
        if at == NOWHERE {
            return;
        }
        at = drop_first_expr(exprs, pools, at);
    }
}

// Gives back the first declarator of a row with its value.
fn drop_first_decl(
    exprs: &mut [ExprRecord],
    decls: &mut [DeclRecord],
    pools: &mut Pools,
    at: u32,
) -> u32
    ensures { (ss : List StmtEntry) (l : Label) (x y z w : Row) →
        Turns (tables exprs.old ss decls.old) pools.old
        (tables exprs.new ss decls.new) pools.new
        [] ((decl_at at, node l x y z w) ∷ []) ((decl_at result, w) ∷ []) }
{
    let decl = record_at(decls, at);
    drop_expr_row(exprs, pools, decl.value);
    give(&mut pools.decls, decls, at);
    decl.next
}

// Gives back a row of declarators with their values.
pub fn drop_decl_row(
    exprs: &mut [ExprRecord],
    decls: &mut [DeclRecord],
    pools: &mut Pools,
    row: u32,
)
    ensures { (ss : List StmtEntry) (r : Row) →
        Turns (tables exprs.old ss decls.old) pools.old
        (tables exprs.new ss decls.new) pools.new
        [] ((decl_at row, r) ∷ []) [] }
{
    let mut at = row;
    for _i in 0..decls.len() {
        if at == NOWHERE {
            return;
        }
        at = drop_first_decl(exprs, decls, pools, at);
    }
}

// Gives back the first statement of a row with its expressions and declarators; its statements come in front of the others.
fn drop_first_stmt(tables: &mut Tables, at: u32) -> u32
    ensures lent { SameSlices tables.old tables.new }
    ensures makes { (l : Label) (x y z w : Row) →
        Makes tables.old tables.new [] ((stmt_at at, node l x y z w) ∷ []) ((stmt_at result, in_front y w) ∷ []) }
{
    let stmt = tables.stmt(at);
    drop_expr_row(tables.exprs, &mut tables.pools, stmt.exprs);
    drop_decl_row(tables.exprs, tables.decls, &mut tables.pools, stmt.decls);
    let row = join_rows(tables.stmts, stmt.stmts, stmt.next);
    give(&mut tables.pools.stmts, tables.stmts, at);
    row
}

// Gives back a row of statements with all their parts.
pub fn drop_stmt_row(tables: &mut Tables, row: u32)
    ensures lent { SameSlices tables.old tables.new }
    ensures makes { (r : Row) → Makes tables.old tables.new [] ((stmt_at row, r) ∷ []) [] }
{
    let mut at = row;
    for _i in 0..tables.stmts.len() {
        if at == NOWHERE {
            return;
        }
        at = drop_first_stmt(tables, at);
    }
}
