// The rule on `for`: its head takes in the newest results.
// A routine is lent slices of the tables that it works on: what it is not lent is known to stay, with no clause.
ghost use Rattle.std.specs.Prelude.{◌≡◌, ◌+◌, ◌≤◌, ◌&&◌, List, [], ◌∷◌, slice_index_or};
ghost use Rattle.script.specs.declared.DeclarationKind.{DeclarationKind as Declaring};
ghost use Rattle.script.specs.Tree.{Declarators, Expr, Init, OptionalExpr, Stmt, Stmts, absent, declaration, expression, for, init_expression, stmt_then};
ghost use Rattle.records.specs.declared.record.DeclRecord.{DeclRecord as DeclEntry};
ghost use Rattle.records.specs.declared.record.ExprRecord.{ExprRecord as ExprEntry};
ghost use Rattle.records.specs.declared.record.Pools.{Pools as Spare};
ghost use Rattle.records.specs.declared.record.StmtRecord.{StmtRecord as StmtEntry};
ghost use Rattle.records.specs.Embedding.{expr_row, for_head as head_of, init_exprs, init_kind, init_stmts, optional_row, stmt_row, stmts_row};
ghost use Rattle.records.specs.Heap.{blank_stmt, expr_at, stmt_at};
ghost use Rattle.records.specs.Readable.{tables};
ghost use Rattle.records.specs.Rows.{Row, end};
ghost use Rattle.rules.specs.Budget.{weight_stmts};
ghost use Rattle.rules.specs.Declarations.{append_declarators};
ghost use Rattle.rules.specs.For.{declaration_into_head, for_head, handle_for_statement, head_from, head_from_declaration, init_from};
ghost use Rattle.rules.specs.Merging.{last_declaration?, merge_leading_assignments_to_declaration};
ghost use Rattle.joining.specs.Needs.{EnoughFor};
ghost use Rattle.moves.specs.Lent.{Makes, SameSlices, heap};
ghost use Rattle.moves.specs.Moved.{Turns};
ghost use Rattle.heading.specs.Fronts.{TurnsToHead, head_with, is_expression_kind, is_var_kind, joined_init, rows_of, worked_head};

use joining::join_sequence;
use merging::{append_names, merge_leading_assignments_to_declaration};
use moves::{Tables, detach, give, link, record_at, relink, set};
use pool::NOWHERE;
use records::{DeclRecord, ExprRecord, Pools, StmtRecord};
use script::{DeclarationKind, ForHead, ForInit, StatementKind};

// The head of a `for` while it is worked: what its init is, its row of expressions, its row of statements, and the results before it.
#[derive(Clone, Copy)]
pub struct Front {
    pub init: ForInit,
    pub values: u32,
    pub inner: u32,
    pub results: u32,
}

// Whether an expression statement stands at a place.
fn is_expression(stmts: &[StmtRecord], at: u32) -> bool
    ensures { result ≡ is_expression_kind (slice_index_or stmts.now at blank_stmt).kind }
{
    record_at(stmts, at).kind == StatementKind::Expression
}

// Whether a `var` stands at a place.
fn is_var(stmts: &[StmtRecord], at: u32) -> bool
    ensures { result ≡ is_var_kind (slice_index_or stmts.now at blank_stmt).kind }
{
    record_at(stmts, at).kind == StatementKind::Declaration(DeclarationKind::Var)
}

// An expression or none as the init.
fn put_init(exprs: &mut [ExprRecord], expr: u32, front: Front) -> Front
    ensures { (ss : List StmtEntry) (ds : List DeclEntry) (p : Spare) (v : OptionalExpr) (w y : Row) (r : Stmts) →
        TurnsToHead (tables exprs.old ss ds) p (tables exprs.new ss ds) p
        ((expr_at expr, optional_row v end) ∷ rows_of front w y r)
        result (head_with (init_from v) r) w y }
{
    if expr == NOWHERE {
        return Front {
            init: ForInit::Absent,
            ..front
        };
    }
    link(exprs, expr, front.values);
    Front {
        init: ForInit::Expression,
        values: expr,
        ..front
    }
}

// A `var` before a `for` without an init becomes the init.
fn take_var(stmts: &mut [StmtRecord], front: Front) -> Front
    ensures { (es : List ExprEntry) (ds : List DeclEntry) (p : Spare) (w y : Row) (r : Stmts) →
        TurnsToHead (tables es stmts.old ds) p (tables es stmts.new ds) p
        (rows_of front w y r)
        result (declaration_into_head absent (last_declaration? r)) w y }
{
    if !is_var(stmts, front.results) {
        return Front {
            init: ForInit::Absent,
            ..front
        };
    }
    let behind = relink(stmts, front.results, front.inner);
    Front {
        init: ForInit::Declaration,
        inner: front.results,
        results: behind,
        ..front
    }
}

// An expression before the init, or alone.
fn join_init(exprs: &mut [ExprRecord], pools: &mut Pools, a: u32, init: u32) -> u32
    ensures { (ss : List StmtEntry) (ds : List DeclEntry) (x : Expr) (v : OptionalExpr) → 1 ≤ pools.old.exprs.count →
        Turns (tables exprs.old ss ds) pools.old (tables exprs.new ss ds) pools.new
        [] ((expr_at a, expr_row x end) ∷ (expr_at init, optional_row v end) ∷ []) ((expr_at result, expr_row (joined_init x v) end) ∷ []) }
{
    if init == NOWHERE {
        return a;
    }
    join_sequence(exprs, pools, a, init)
}

// The expression statement before a `for` goes into its init.
fn take_expression(
    exprs: &mut [ExprRecord],
    stmts: &mut [StmtRecord],
    pools: &mut Pools,
    expr: u32,
    front: Front,
) -> Front
    ensures { (ds : List DeclEntry) (v : OptionalExpr) (w y : Row) (a : Expr) (r : Stmts) → 1 ≤ pools.old.exprs.count →
        TurnsToHead (tables exprs.old stmts.old ds) pools.old
        (tables exprs.new stmts.new ds) pools.new
        ((expr_at expr, optional_row v end) ∷ rows_of front w y (stmt_then (expression a) r))
        result (head_with (init_expression (joined_init a v)) r) w y }
{
    let last = record_at(stmts, front.results);
    give(&mut pools.stmts, stmts, front.results);
    let joined = join_init(exprs, pools, last.exprs, expr);
    link(exprs, joined, front.values);
    Front {
        init: ForInit::Expression,
        values: joined,
        inner: front.inner,
        results: last.next,
    }
}

// The head of a `for` whose init is an expression or none.
fn head_from_expression(
    sequences: bool,
    exprs: &mut [ExprRecord],
    stmts: &mut [StmtRecord],
    pools: &mut Pools,
    expr: u32,
    front: Front,
) -> Front
    ensures { (ds : List DeclEntry) (v : OptionalExpr) (w y : Row) (r : Stmts) → 1 ≤ pools.old.exprs.count →
        TurnsToHead (tables exprs.old stmts.old ds) pools.old
        (tables exprs.new stmts.new ds) pools.new
        ((expr_at expr, optional_row v end) ∷ rows_of front w y r)
        result (head_from sequences v r) w y }
{
    if !sequences {
        return put_init(exprs, expr, front);
    }
    if is_expression(stmts, front.results) {
        return take_expression(exprs, stmts, pools, expr, front);
    }
    if expr == NOWHERE {
        return take_var(stmts, front);
    }
    put_init(exprs, expr, front)
}

// The head of a `for` whose init is an expression: its leading assignments go into the declaration before it.
fn head_after_leading(sequences: bool, tables: &mut Tables, front: Front) -> Front
    ensures lent { SameSlices tables.old tables.new }
    ensures makes { (e : Expr) (w y : Row) (r : Stmts) → 1 + (weight_stmts r).exprs ≤ tables.old.pools.exprs.count →
        TurnsToHead (heap tables.old) tables.old.pools (heap tables.new) tables.new.pools
        (rows_of front (expr_row e w) y r)
        result (worked_head sequences e r) w y }
{
    let behind = detach(tables.exprs, front.values);
    // A field cannot be lent to read beside one that is lent to write, so the statements are borrowed by themselves.
    let stmts = &mut *tables.stmts;
    let worked = merge_leading_assignments_to_declaration(
        true,
        tables.exprs,
        stmts,
        tables.decls,
        &mut tables.pools,
        front.values,
        front.results,
    );
    let left = Front {
        values: behind,
        results: worked.results,
        ..front
    };
    head_from_expression(
        sequences,
        tables.exprs,
        tables.stmts,
        &mut tables.pools,
        worked.target,
        left,
    )
}

// Whether a declaration in a head and the newest result are both a `var` to be joined.
fn can_join_vars(sequences: bool, stmts: &[StmtRecord], inner: u32, results: u32) -> bool
    ensures { result ≡ (sequences && (is_var_kind (slice_index_or stmts.now inner blank_stmt).kind
        && is_var_kind (slice_index_or stmts.now results blank_stmt).kind)) }
{
    sequences && is_var(stmts, inner) && is_var(stmts, results)
}

// Puts the names of a declaration among the results before those of a declaration in a head, and tells what was behind it.
fn join_vars(
    stmts: &mut [StmtRecord],
    decls: &mut [DeclRecord],
    pools: &mut Pools,
    inner: u32,
    results: u32,
) -> u32
    ensures { (es : List ExprEntry) (k : Declaring) (xs ys : Declarators) (y z : Row) →
        Turns (tables es stmts.old decls.old) pools.old (tables es stmts.new decls.new) pools.new
        [] ((stmt_at inner, stmt_row (declaration k ys) y) ∷ (stmt_at results, stmt_row (declaration k xs) z) ∷ [])
        ((stmt_at inner, stmt_row (declaration k (append_declarators xs ys)) y) ∷ (stmt_at result, z) ∷ []) }
{
    let own = record_at(stmts, inner);
    let last = record_at(stmts, results);
    let names = append_names(decls, last.decls, own.decls);
    set(
        stmts,
        inner,
        StmtRecord {
            decls: names,
            ..own
        },
    );
    give(&mut pools.stmts, stmts, results);
    last.next
}

// The head of a `for` whose init is a declaration: a `var` takes in the one before it.
fn head_from_declaration(
    sequences: bool,
    stmts: &mut [StmtRecord],
    decls: &mut [DeclRecord],
    pools: &mut Pools,
    front: Front,
) -> Front
    ensures { (es : List ExprEntry) (k : Declaring) (xs : Declarators) (w y : Row) (r : Stmts) →
        TurnsToHead (tables es stmts.old decls.old) pools.old
        (tables es stmts.new decls.new) pools.new
        (rows_of front w (stmt_row (declaration k xs) y) r)
        result (head_from_declaration sequences k xs r) w y }
{
    let mut results = front.results;
    if can_join_vars(sequences, stmts, front.inner, results) {
        results = join_vars(stmts, decls, pools, front.inner, results);
    }
    Front {
        init: ForInit::Declaration,
        results,
        ..front
    }
}

// The head of a `for` after the results before it.
fn work_head(sequences: bool, tables: &mut Tables, front: Front) -> Front
    ensures lent { SameSlices tables.old tables.new }
    ensures makes { (i : Init) (w y : Row) (r : Stmts) → front.init ≡ init_kind i → 1 + (weight_stmts r).exprs ≤ tables.old.pools.exprs.count →
        TurnsToHead (heap tables.old) tables.old.pools (heap tables.new) tables.new.pools
        (rows_of front (init_exprs i w) (init_stmts i y) r)
        result (for_head sequences i r) w y }
{
    match front.init {
        ForInit::Absent => head_from_expression(
            sequences,
            tables.exprs,
            tables.stmts,
            &mut tables.pools,
            NOWHERE,
            front,
        ),
        ForInit::Expression => head_after_leading(sequences, tables, front),
        ForInit::Declaration => head_from_declaration(
            sequences,
            tables.stmts,
            tables.decls,
            &mut tables.pools,
            front,
        ),
    }
}

// A `for` after the results before it.
pub fn handle_for_statement(
    sequences: bool,
    tables: &mut Tables,
    at: u32,
    head: ForHead,
    values: u32,
    inner: u32,
    results: u32,
) -> u32
    ensures lent { SameSlices tables.old tables.new }
    ensures makes { (i : Init) (t u : OptionalExpr) (b : Stmt) (r : Stmts) → head ≡ head_of i t u →
        EnoughFor (for i t u b) r tables.old.pools →
        Makes tables.old tables.new
        (stmt_at at ∷ []) ((expr_at values, init_exprs i (optional_row t (optional_row u end))) ∷ (stmt_at inner, init_stmts i (stmt_row b end))
        ∷ (stmt_at results, stmts_row r) ∷ [])
        ((stmt_at result, stmts_row (handle_for_statement sequences i t u b r)) ∷ []) }
{
    let front = Front {
        init: head.init,
        values,
        inner,
        results,
    };
    let worked = work_head(sequences, tables, front);
    let kind = StatementKind::For(ForHead {
        init: worked.init,
        ..head
    });
    set(
        tables.stmts,
        at,
        StmtRecord {
            kind,
            exprs: worked.values,
            stmts: worked.inner,
            decls: NOWHERE,
            next: worked.results,
        },
    );
    at
}
