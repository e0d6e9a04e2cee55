// Declarations.
// A routine is lent slices of the tables that it works on: what it is not lent is known to stay, with no clause.
ghost use Rattle.std.specs.Prelude.{◌≡◌, List, [], ◌∷◌};
ghost use Rattle.script.specs.Tree.{Declarators, Stmts, declaration};
ghost use Rattle.records.specs.declared.record.ExprRecord.{ExprRecord as ExprEntry};
ghost use Rattle.records.specs.Embedding.{declarators_row, stmts_row};
ghost use Rattle.records.specs.Heap.{decl_at, stmt_at};
ghost use Rattle.records.specs.Readable.{tables};
ghost use Rattle.rules.specs.Declarations.{handle_variable_declaration, join_declarations};
ghost use Rattle.rules.specs.Merging.{last_declaration?};
ghost use Rattle.moves.specs.Lent.{Makes, SameSlices};
ghost use Rattle.moves.specs.Moved.{Turns};
ghost use Rattle.joining.specs.Needs.{EnoughFor};
ghost use Rattle.merging.specs.Declaring.{first_worked, joins};

use crate::leading::merge_leading_assignments_to_declaration;
use crate::names::append_names;
use moves::{Tables, give, record_at, set};
use pool::NOWHERE;
use records::{DeclRecord, ExprRecord, Pools, StmtRecord};
use script::{DeclarationKind, StatementKind};

// Is the newest result a declaration of this kind, and are such declarations joined.
fn may_join(join_vars: bool, newest: StatementKind, kind: DeclarationKind) -> bool
    ensures { result ≡ joins join_vars newest kind }
{
    join_vars && newest == StatementKind::Declaration(kind)
}

// Merges the leading assignments of the first declarator's value into the newest result, and tells what the results are.
fn merge_first_value(
    exprs: &mut [ExprRecord],
    stmts: &[StmtRecord],
    decls: &mut [DeclRecord],
    pools: &mut Pools,
    names: u32,
    results: u32,
) -> u32
    ensures { (ds : Declarators) (r : Stmts) →
        Turns (tables exprs.old stmts.now decls.old) pools.old
        (tables exprs.new stmts.now decls.new) pools.new
        [] ((decl_at names, declarators_row ds) ∷ (stmt_at results, stmts_row r) ∷ [])
        ((decl_at names, declarators_row (first_worked ds r).declarators) ∷ (stmt_at result, stmts_row (first_worked ds r).results) ∷ []) }
{
    if names == NOWHERE {
        return results;
    }
    let first = record_at(decls, names);
    if first.value == NOWHERE {
        return results;
    }
    let worked = merge_leading_assignments_to_declaration(
        false,
        exprs,
        stmts,
        decls,
        pools,
        first.value,
        results,
    );
    set(
        decls,
        names,
        DeclRecord {
            value: worked.target,
            ..first
        },
    );
    worked.results
}

// Puts a declaration onto the results: its declarators behind those of the newest, or as a statement of its own.
fn join_declarations(
    join_vars: bool,
    stmts: &mut [StmtRecord],
    decls: &mut [DeclRecord],
    pools: &mut Pools,
    at: u32,
    kind: DeclarationKind,
    names: u32,
    results: u32,
) -> u32
    ensures { (es : List ExprEntry) (ds : Declarators) (r : Stmts) →
        Turns (tables es stmts.old decls.old) pools.old (tables es stmts.new decls.new) pools.new
        (stmt_at at ∷ []) ((decl_at names, declarators_row ds) ∷ (stmt_at results, stmts_row r) ∷ [])
        ((stmt_at result, stmts_row (join_declarations join_vars kind ds (last_declaration? r))) ∷ []) }
{
    let newest = record_at(stmts, results);
    if may_join(join_vars, newest.kind, kind) {
        let row = append_names(decls, newest.decls, names);
        set(
            stmts,
            results,
            StmtRecord {
                decls: row,
                ..newest
            },
        );
        give(&mut pools.stmts, stmts, at);
        return results;
    }
    set(
        stmts,
        at,
        StmtRecord {
            kind: StatementKind::Declaration(kind),
            exprs: NOWHERE,
            stmts: NOWHERE,
            decls: names,
            next: results,
        },
    );
    at
}

// Puts a declaration onto the results.
pub fn handle_variable_declaration(
    join_vars: bool,
    tables: &mut Tables,
    at: u32,
    kind: DeclarationKind,
    names: u32,
    results: u32,
) -> u32
    ensures lent { SameSlices tables.old tables.new }
    ensures makes { (ds : Declarators) (r : Stmts) → EnoughFor (declaration kind ds) r tables.old.pools →
        Makes tables.old tables.new
        (stmt_at at ∷ []) ((decl_at names, declarators_row ds) ∷ (stmt_at results, stmts_row r) ∷ [])
        ((stmt_at result, stmts_row (handle_variable_declaration join_vars kind ds r)) ∷ []) }
{
    // A field cannot be lent to read beside one that is lent to write, so the statements are borrowed by themselves.
    let stmts = &mut *tables.stmts;
    let before = merge_first_value(
        tables.exprs,
        stmts,
        tables.decls,
        &mut tables.pools,
        names,
        results,
    );
    join_declarations(
        join_vars,
        tables.stmts,
        tables.decls,
        &mut tables.pools,
        at,
        kind,
        names,
        before,
    )
}
