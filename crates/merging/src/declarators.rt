// The declarator that takes an assigned value. The search goes from the last declarator back, and stops at one that has a
// value, at one of the assigned name, and at any in a let or const. Rows are linked from the first on: so a walk forward
// keeps what the last stop says.
// A routine is lent slices of the tables that it works on: what it is not lent is known to stay, with no clause.
ghost use Rattle.std.specs.Prelude.{◌≡◌, ◌≤◌, List, ◌∷◌, length, ◌==◌, None};
ghost use Rattle.script.specs.Sound.{records_declarators};
ghost use Rattle.script.specs.Tree.{Declarators, Expr};
ghost use Rattle.records.specs.declared.record.ExprRecord.{ExprRecord as ExprEntry};
ghost use Rattle.records.specs.declared.record.Pools.{Pools};
ghost use Rattle.records.specs.declared.record.StmtRecord.{StmtRecord as StmtEntry};
ghost use Rattle.records.specs.Embedding.{declarators_row, expr_row};
ghost use Rattle.records.specs.Heap.{Place, decl_at, expr_at};
ghost use Rattle.records.specs.Owned.{Owns, Root, Short};
ghost use Rattle.records.specs.Readable.{tables};
ghost use Rattle.records.specs.Rows.{At, end};
ghost use Rattle.rules.specs.Merging.{merge_assignment_to_declaration, mergeable};
ghost use Rattle.moves.specs.Moved.{Moved};
ghost use Rattle.merging.specs.Searched.{is_merged, leads, merged_roots, place_or, searched, searched_here};

use moves::{record_at, set};
use pool::NOWHERE;
use predicates::is_literal_value;
use records::{DeclRecord, ExprRecord, along};
use script::DeclarationKind;

// May a declarator of this kind, of the assigned name and without a value, take the value.
fn may_take(kind: DeclarationKind, literal: bool) -> bool
    ensures { result ≡ mergeable kind literal }
{
    match kind {
        DeclarationKind::Var => true,
        DeclarationKind::Let => literal,
        DeclarationKind::Const => false,
    }
}

// What is found at one declarator, if the search comes so far: itself, none, or what is found before it.
fn look(
    kind: DeclarationKind,
    literal: bool,
    name: u8,
    decl: DeclRecord,
    at: u32,
    before: Option<u32>,
) -> Option<u32>
    ensures { result ≡ place_or before (searched_here kind literal (decl.name == name) (leads decl.value) at) }
{
    if decl.value != NOWHERE {
        return None;
    }
    if decl.name == name {
        return may_take(kind, literal).then_some(at);
    }
    match kind {
        DeclarationKind::Var => before,
        DeclarationKind::Let | DeclarationKind::Const => None,
    }
}

// The declarator that takes the value.
fn find_declarator(
    kind: DeclarationKind,
    literal: bool,
    name: u8,
    decls: &[DeclRecord],
    names: u32,
) -> Option<u32>
    ensures { (es : List ExprEntry) (ss : List StmtEntry) (ds : Declarators) →
        Short (tables es ss decls.now) → At (tables es ss decls.now) (decl_at names) (declarators_row ds) →
        (records_declarators ds).decls ≤ length decls.now →
        result ≡ place_or None (searched decls.now kind literal name ds names) }
{
    let mut found = None;
    for (at, decl) in along(decls, names) {
        found = look(kind, literal, name, decl, at, found);
    }
    found
}

// Makes an assigned value that of its declarator, and tells whether there is one that takes it.
pub fn merge_assignment_to_declaration(
    kind: DeclarationKind,
    exprs: &[ExprRecord],
    decls: &mut [DeclRecord],
    names: u32,
    name: u8,
    value: u32,
) -> bool
    ensures { (ss : List StmtEntry) (p : Pools) (ds : Declarators) (e : Expr) (loose : List Place) (rest : List Root) →
        Owns (tables exprs.now ss decls.old) p loose
        ((decl_at names, declarators_row ds) ∷ (expr_at value, expr_row e end) ∷ rest) →
        (result ≡ is_merged (merge_assignment_to_declaration kind ds name e))
        × Moved (tables exprs.now ss decls.old) (tables exprs.now ss decls.new) p loose
        (merged_roots names ds value e (merge_assignment_to_declaration kind ds name e) rest) }
{
    let literal = is_literal_value(exprs, value);
    let Some(at) = find_declarator(kind, literal, name, decls, names) else {
        return false;
    };
    let decl = record_at(decls, at);
    set(decls, at, DeclRecord { value, ..decl });
    true
}
