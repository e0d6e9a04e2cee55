// What is kept of the statements behind a jump.
// A routine is lent slices of the tables that it works on: what it is not lent is known to stay, with no clause.
ghost use Rattle.std.specs.Prelude.{ℕ, ◌≤◌, List, [], ◌∷◌, length, if◌then◌else◌};
ghost use Rattle.script.specs.Tree.{Declarators, Stmt, Stmts, absent, declarator_then, stmt_then};
ghost use Rattle.records.specs.declared.record.ExprRecord.{ExprRecord as ExprEntry};
ghost use Rattle.records.specs.declared.record.StmtRecord.{StmtRecord as StmtEntry};
ghost use Rattle.records.specs.Embedding.{declarators_row, stmt_row, stmts_row};
ghost use Rattle.records.specs.Heap.{decl_at, stmt_at};
ghost use Rattle.records.specs.Readable.{tables};
ghost use Rattle.records.specs.Rows.{Row};
ghost use Rattle.rules.specs.Statements.{push_all, statement_cares_about_scope};
ghost use Rattle.rules.specs.Unreachable.{bare_declarators, keep_declarations, lexical_declarations, push_kept_vars};
ghost use Rattle.moves.specs.Lent.{Makes, SameSlices};
ghost use Rattle.moves.specs.Moved.{Turns};
ghost use Rattle.unreachable.specs.Noted.{Notes};

use crate::noting::{NotedNames, noted_names};
use moves::{Tables, detach, drop_stmt_row, relink, set, take};
use pool::NOWHERE;
use predicates::statement_cares_about_scope;
use records::{DeclRecord, ExprRecord, Pools, StmtRecord};
use script::{DeclarationKind, StatementKind};

// The results so far, and the statements that are left.
#[derive(Clone, Copy)]
struct Sifted {
    results: u32,
    rest: u32,
}

// Puts the first statement onto the results if it is a let or a const, else gives it back.
fn sift_stmt(tables: &mut Tables, at: u32, results: u32) -> Sifted
    ensures lent { SameSlices tables.old tables.new }
    ensures makes { (x : Stmt) (w : Row) (r : Stmts) → Makes tables.old tables.new
        [] ((stmt_at at, stmt_row x w) ∷ (stmt_at results, stmts_row r) ∷ [])
        ((stmt_at result.rest, w) ∷ (stmt_at result.results, stmts_row (if statement_cares_about_scope x then stmt_then x r else r)) ∷ []) }
{
    if statement_cares_about_scope(tables.stmts(), at) {
        let rest = relink(tables.stmts, at, results);
        return Sifted { results: at, rest };
    }
    let rest = detach(tables.stmts, at);
    drop_stmt_row(tables, at);
    Sifted { results, rest }
}

// Puts every let and const of a row onto the results, and gives the other statements back.
fn sift_row(tables: &mut Tables, row: u32, results: u32) -> u32
    ensures lent { SameSlices tables.old tables.new }
    ensures makes { (xs r : Stmts) → Makes tables.old tables.new
        [] ((stmt_at row, stmts_row xs) ∷ (stmt_at results, stmts_row r) ∷ [])
        ((stmt_at result, stmts_row (push_all (lexical_declarations xs) r)) ∷ []) }
{
    let mut pushed = results;
    let mut at = row;
    for _i in 0..tables.stmts.len() {
        if at == NOWHERE {
            return pushed;
        }
        let sifted = sift_stmt(tables, at, pushed);
        pushed = sifted.results;
        at = sifted.rest;
    }
    pushed
}

// Puts a declarator without a value in front of others.
fn push_bare_declarator(decls: &mut [DeclRecord], pools: &mut Pools, name: u8, row: u32) -> u32
    ensures { (es : List ExprEntry) (ss : List StmtEntry) (ds : Declarators) → 1 ≤ pools.old.decls.count →
        Turns (tables es ss decls.old) pools.old (tables es ss decls.new) pools.new
        [] ((decl_at row, declarators_row ds) ∷ []) ((decl_at result, declarators_row (declarator_then name absent ds)) ∷ []) }
{
    let at = take(&mut pools.decls, decls);
    set(
        decls,
        at,
        DeclRecord {
            name,
            value: NOWHERE,
            next: row,
        },
    );
    at
}

// A declarator without a value for each noted name.
fn bare_row(decls: &mut [DeclRecord], pools: &mut Pools, noted: &NotedNames) -> u32
    ensures { (es : List ExprEntry) (ss : List StmtEntry) (l : List ℕ) → Notes noted.now l → length l ≤ pools.old.decls.count →
        Turns (tables es ss decls.old) pools.old (tables es ss decls.new) pools.new
        [] [] ((decl_at result, declarators_row (bare_declarators l)) ∷ []) }
{
    let mut row = NOWHERE;
    for name in noted.names.iter().rev() {
        row = push_bare_declarator(decls, pools, *name, row);
    }
    row
}

// Puts a `var` with the noted names onto the results, if there are any.
fn push_noted(
    stmts: &mut [StmtRecord],
    decls: &mut [DeclRecord],
    pools: &mut Pools,
    noted: &NotedNames,
    results: u32,
) -> u32
    ensures { (es : List ExprEntry) (l : List ℕ) (r : Stmts) → Notes noted.now l → length l ≤ pools.old.decls.count →
        (1 ≤ length l → 1 ≤ pools.old.stmts.count) →
        Turns (tables es stmts.old decls.old) pools.old (tables es stmts.new decls.new) pools.new
        [] ((stmt_at results, stmts_row r) ∷ []) ((stmt_at result, stmts_row (push_kept_vars l r)) ∷ []) }
{
    if noted.names.is_empty() {
        return results;
    }
    let names = bare_row(decls, pools, noted);
    let at = take(&mut pools.stmts, stmts);
    set(
        stmts,
        at,
        StmtRecord {
            kind: StatementKind::Declaration(DeclarationKind::Var),
            exprs: NOWHERE,
            stmts: NOWHERE,
            decls: names,
            next: results,
        },
    );
    at
}

// Behind a jump: let and const stay, of `var` declarations at any depth the names, and all else is given back.
pub fn keep_declarations(tables: &mut Tables, rest: u32, results: u32) -> u32
    ensures lent { SameSlices tables.old tables.new }
    ensures makes { (xs r : Stmts) → Makes tables.old tables.new
        [] ((stmt_at rest, stmts_row xs) ∷ (stmt_at results, stmts_row r) ∷ [])
        ((stmt_at result, stmts_row (keep_declarations xs r)) ∷ []) }
{
    let noted = noted_names(tables, rest);
    let kept = sift_row(tables, rest, results);
    push_noted(tables.stmts, tables.decls, &mut tables.pools, &noted, kept)
}
