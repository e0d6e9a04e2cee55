// The names that dead statements declare by `var`, each once, the first met first.
// A routine is lent slices of the tables that it works on: what it is not lent is known to stay, with no clause.
ghost use Rattle.std.specs.Prelude.{ℕ, ◌≤◌, List, [], ◌∷◌, length};
ghost use Rattle.script.specs.Tree.{Stmts};
ghost use Rattle.records.specs.declared.record.ExprRecord.{ExprRecord as ExprEntry};
ghost use Rattle.records.specs.declared.record.StmtRecord.{StmtRecord as StmtEntry};
ghost use Rattle.records.specs.Embedding.{stmts_row};
ghost use Rattle.records.specs.Heap.{Place, decl_at, stmt_at};
ghost use Rattle.records.specs.Owned.{Owns, Root, Short};
ghost use Rattle.records.specs.Readable.{tables};
ghost use Rattle.records.specs.Rows.{At, Row, row_length};
ghost use Rattle.run.specs.Names.{var_declared_list};
ghost use Rattle.rules.specs.Unreachable.{note_hoisted_names};
ghost use Rattle.moves.specs.Lent.{heap};
ghost use Rattle.unreachable.specs.Noted.{Notes, Noting, declarators_in, names_of_row, noted_with, statements_in, vars_of_kind, vars_of_row};

use arrayvec::ArrayVec;
use moves::Tables;
use records::{DeclRecord, StmtRecord, along};
use script::{DeclarationKind, StatementKind};

// Which names were met, and the names in the order in which they were met.
#[derive(Drop)]
pub struct NotedNames {
    pub seen: [bool; 256],
    pub names: ArrayVec<u8, 256>,
}

// Notes a name that was not met before.
fn note_name(noted: &mut NotedNames, name: u8)
    ensures { (l : List ℕ) → Notes noted.old l → Notes noted.new (noted_with name l) }
{
    if noted.seen[name as usize] {
        return;
    }
    noted.seen[name as usize] = true;
    // There is room: no more than 256 names are met.
    let _ = noted.names.try_push(name);
}

// Notes the names of a row of declarators.
fn note_declarators(decls: &[DeclRecord], row: u32, noted: &mut NotedNames)
    ensures { (es : List ExprEntry) (ss : List StmtEntry) (z : Row) → Short (tables es ss decls.now) →
        At (tables es ss decls.now) (decl_at row) z → row_length z ≤ length decls.now →
        Noting noted.old noted.new (names_of_row z) }
{
    for (_, decl) in along(decls, row) {
        note_name(noted, decl.name);
    }
}

// Notes the names of a declaration by `var`.
fn note_declaration(decls: &[DeclRecord], kind: StatementKind, row: u32, noted: &mut NotedNames)
    ensures { (es : List ExprEntry) (ss : List StmtEntry) (z : Row) → Short (tables es ss decls.now) →
        At (tables es ss decls.now) (decl_at row) z → row_length z ≤ length decls.now →
        Noting noted.old noted.new (vars_of_kind kind z) }
{
    if let StatementKind::Declaration(DeclarationKind::Var) = kind {
        note_declarators(decls, row, noted);
    }
}

// Notes the names that a row of statements or cases declares by `var`, at any depth. `most` is at least the number of its records.
fn note_vars(
    most: usize,
    stmts: &[StmtRecord],
    decls: &[DeclRecord],
    row: u32,
    noted: &mut NotedNames,
)
    ensures { (es : List ExprEntry) (r : Row) → Short (tables es stmts.now decls.now) →
        At (tables es stmts.now decls.now) (stmt_at row) r → statements_in r ≤ most → declarators_in r ≤ length decls.now →
        Noting noted.old noted.new (vars_of_row r) }
{
    let Some(below) = most.checked_sub(1) else {
        return;
    };
    for (_, stmt) in along(stmts, row).take(most) {
        note_declaration(decls, stmt.kind, stmt.decls, noted);
        note_vars(below, stmts, decls, stmt.stmts, noted);
    }
}

// The names that a row of statements declares by `var`, at any depth.
pub fn noted_names(tables: &Tables, row: u32) -> NotedNames
    ensures { (loose : List Place) (xs : Stmts) (rest : List Root) →
        Owns (heap tables.now) tables.now.pools loose ((stmt_at row, stmts_row xs) ∷ rest) →
        Notes result (note_hoisted_names (var_declared_list xs) []) }
{
    let mut noted = NotedNames {
        seen: [false; 256],
        names: ArrayVec::new(),
    };
    let most = tables.stmts.len();
    note_vars(most, tables.stmts, tables.decls, row, &mut noted);
    noted
}
