// Whether tables hold a sheet, whatever stands in them: every record is marked once, by a row or by a chain of spares.
ghost use Rattle.std.specs.Prelude.{◌≡◌, is_some, ◌+◌, ◌<◌, ◌≤◌, map, length, replicate};
ghost use Rattle.pool.specs.Chain.{nowhere};
ghost use Rattle.shapes.specs.Shape.{no_survey, RoomForOne};
ghost use Rattle.records.specs.Heap.{Heap};
ghost use Rattle.records.specs.Owned.{Short};
ghost use Rattle.records.specs.Lent.{heap};
ghost use Rattle.lending.specs.Marked.{unmarked, Sized, Claims, MarksExprs, MarksDecls, MarksParts, marks_of, StmtsMarked, declared_at, weighed, told};
ghost use Rattle.lending.specs.Marked.{RootsMarked, ChainMarked, AllMarked, SparesMarked, Reached, Blank, RowsHeld, Decides, body_place, ToldAlone, DecidesDraft, DecidesWhole};

use pool::{Linked, NOWHERE, Pool};
use records::{DeclRecord, Draft, ExprRecord, Lent, Pools, Stack, Stage, StmtRecord, Whole};
use script::DeclarationKind;
use shapes::{DeclSurvey, StmtSurvey, fits_expr, fits_stmt, kind_declared, surveyed};

// What the rows of expressions and of declarators of one statement come to.
#[derive(Clone, Copy)]
pub struct Parts {
    pub exprs: u32,
    pub decls: DeclSurvey,
}

// Where the rows of a sheet begin: the three stacks and the body.
#[derive(Clone, Copy)]
pub struct Roots {
    pub exprs: Stack,
    pub stmts: Stack,
    pub decls: Stack,
    pub body: u32,
}

// The marks of the three tables stay three slices: behind one `&mut Marks` each contract and each invariant would also say
// that all three fields keep their reference and their length, which slices do by themselves.

// Marks the record at a place, unless it lies outside or is marked already.
fn claim(marks: &mut [u8], at: u32) -> bool
    ensures { Claims result marks.old at (length marks.old) marks.new }
{
    let free = (at as usize) < marks.len() && marks[at as usize] == 0;
    if free {
        marks[at as usize] = 1;
    }
    free
}

// The three walks are no one generic function: one row of parts, one value and three rows make three bodies behind a trait.

// Marks a row of expressions and all their parts. It answers how many stand in the row.
// Only the parts are a call of their own: a row may be as long as its table.
fn mark_exprs(exprs: &[ExprRecord], marks: &mut [u8], row: u32) -> Option<u32>
    requires { (length exprs.now ≤ nowhere) × (length marks.old ≡ length exprs.now) }
    ensures row { MarksExprs result exprs.now marks.old row marks.new }
    ensures left { unmarked marks.new ≤ unmarked marks.old }
{
    let mut at = row;
    let mut count = 0;
    while at != NOWHERE {
        if !claim(marks, at) {
            return None;
        }
        let record = exprs[at as usize];
        let parts = mark_exprs(exprs, marks, record.first)?;
        if !fits_expr(record.kind, parts) {
            return None;
        }
        count += 1;
        at = record.next;
    }
    Some(count)
}

// Marks a row of declarators and their values.
fn mark_decls(
    exprs: &[ExprRecord],
    decls: &[DeclRecord],
    marks_exprs: &mut [u8],
    marks_decls: &mut [u8],
    row: u32,
) -> Option<DeclSurvey>
    requires exprs { (length exprs.now ≤ nowhere) × (length marks_exprs.old ≡ length exprs.now) }
    requires decls { (length decls.now ≤ nowhere) × (length marks_decls.old ≡ length decls.now) }
    ensures { MarksDecls result exprs.now decls.now marks_exprs.old marks_decls.old row marks_exprs.new marks_decls.new }
{
    let mut at = row;
    let mut survey = DeclSurvey::default();
    while at != NOWHERE {
        if !claim(marks_decls, at) {
            return None;
        }
        let record = decls[at as usize];
        let values = mark_exprs(exprs, marks_exprs, record.value)?;
        if values > 1 {
            return None;
        }
        survey.count += 1;
        survey.bare += u32::from(values == 0);
        at = record.next;
    }
    Some(survey)
}

// Marks a row of expressions and a row of declarators.
fn mark_parts(
    tables: &Lent,
    marks_exprs: &mut [u8],
    marks_decls: &mut [u8],
    at_exprs: u32,
    at_decls: u32,
) -> Option<Parts>
    requires exprs { (length tables.now.exprs.now ≤ nowhere) × (length marks_exprs.old ≡ length tables.now.exprs.now) }
    requires decls { (length tables.now.decls.now ≤ nowhere) × (length marks_decls.old ≡ length tables.now.decls.now) }
    ensures { MarksParts result tables.now.exprs.now tables.now.decls.now marks_exprs.old marks_decls.old at_exprs at_decls marks_exprs.new marks_decls.new }
{
    Some(Parts {
        exprs: mark_exprs(tables.exprs, marks_exprs, at_exprs)?,
        decls: mark_decls(
            tables.exprs,
            tables.decls,
            marks_exprs,
            marks_decls,
            at_decls,
        )?,
    })
}

// How the statement at a place is declared, if there is one.
fn declared_at(stmts: &[StmtRecord], at: u32) -> Option<DeclarationKind>
    ensures { result ≡ declared_at stmts.now at }
{
    kind_declared(stmts.get(at as usize)?.kind)
}

// One statement more, if it fits its rule.
fn weighed(
    stmts: &[StmtRecord],
    record: StmtRecord,
    parts: Parts,
    inner: StmtSurvey,
    survey: StmtSurvey,
) -> Option<StmtSurvey>
    requires { RoomForOne survey }
    ensures { result ≡ weighed stmts.now «record» parts inner survey }
{
    let fits = fits_stmt(
        record.kind,
        parts.exprs,
        inner,
        parts.decls,
        declared_at(stmts, record.stmts),
    );
    fits.then(|| surveyed(record.kind, parts.exprs, survey))
}

// Marks a row of statements and all their parts. The tables come by reference, since each level of a deep sheet is a call of this.
fn mark_stmts(
    tables: &Lent,
    marks_exprs: &mut [u8],
    marks_stmts: &mut [u8],
    marks_decls: &mut [u8],
    row: u32,
) -> Option<StmtSurvey>
    requires short { Short (heap tables.now) }
    requires sized { Sized (heap tables.now) marks_exprs.old marks_stmts.old marks_decls.old }
    ensures row { StmtsMarked result (marks_of marks_exprs.old marks_stmts.old marks_decls.old) (heap tables.now) row no_survey (marks_of marks_exprs.new marks_stmts.new marks_decls.new) }
    ensures left { unmarked marks_stmts.new ≤ unmarked marks_stmts.old }
{
    let mut at = row;
    let mut survey = StmtSurvey::default();
    while at != NOWHERE {
        if !claim(marks_stmts, at) {
            return None;
        }
        let record = tables.stmts[at as usize];
        let parts = mark_parts(tables, marks_exprs, marks_decls, record.exprs, record.decls)?;
        let inner = mark_stmts(tables, marks_exprs, marks_stmts, marks_decls, record.stmts)?;
        survey = weighed(tables.stmts, record, parts, inner, survey)?;
        at = record.next;
    }
    Some(survey)
}

// Whether the counts that a sheet tells are those found, and its body has no case.
fn told(roots: Roots, parts: Parts, items: StmtSurvey, body: StmtSurvey) -> bool
    ensures { result ≡ told roots parts items body }
{
    parts.exprs == roots.exprs.count
        && parts.decls.count == roots.decls.count
        && items.count == roots.stmts.count
        && body.cases == 0
}

// Marks the rows of a sheet.
fn mark_roots(
    roots: Roots,
    tables: Lent,
    marks_exprs: &mut [u8],
    marks_stmts: &mut [u8],
    marks_decls: &mut [u8],
) -> Option<()>
    requires short { Short (heap tables) }
    requires sized { Sized (heap tables) marks_exprs.old marks_stmts.old marks_decls.old }
    ensures { RootsMarked (is_some result) (marks_of marks_exprs.old marks_stmts.old marks_decls.old) (heap tables.entry) roots (marks_of marks_exprs.new marks_stmts.new marks_decls.new) }
{
    let parts = mark_parts(
        &tables,
        marks_exprs,
        marks_decls,
        roots.exprs.top,
        roots.decls.top,
    )?;
    let items = mark_stmts(
        &tables,
        marks_exprs,
        marks_stmts,
        marks_decls,
        roots.stmts.top,
    )?;
    let body = mark_stmts(&tables, marks_exprs, marks_stmts, marks_decls, roots.body)?;
    told(roots, parts, items, body).then_some(())
}

// Marks a chain of spares, unless it leaves the table, meets a marked record, or does not end where the count says.
fn mark_spares<R: Linked>(pool: &Pool, table: &[R], marks: &mut [u8]) -> bool
    requires { length marks.old ≡ length table.now }
    ensures { ChainMarked result marks.old (map R.link table.now) pool.now.head pool.now.count marks.new }
{
    let mut at = pool.head;
    for _ in 0..pool.count {
        if !claim(marks, at) {
            return false;
        }
        at = table[at as usize].next();
    }
    at == NOWHERE
}

// Marks the spares of each table.
fn mark_pools(
    pools: &Pools,
    tables: Lent,
    marks_exprs: &mut [u8],
    marks_stmts: &mut [u8],
    marks_decls: &mut [u8],
) -> bool
    requires { Sized (heap tables) marks_exprs.old marks_stmts.old marks_decls.old }
    ensures { SparesMarked result (marks_of marks_exprs.old marks_stmts.old marks_decls.old) (heap tables.entry) pools.now (marks_of marks_exprs.new marks_stmts.new marks_decls.new) }
{
    mark_spares(&pools.exprs, tables.exprs, marks_exprs)
        && mark_spares(&pools.stmts, tables.stmts, marks_stmts)
        && mark_spares(&pools.decls, tables.decls, marks_decls)
}

// Whether every mark is set.
fn all_marked(marks: &[u8]) -> bool
    ensures { AllMarked result marks.now (length marks.now) }
{
    for mark in marks {
        if *mark != 1 {
            return false;
        }
    }
    true
}

pub fn clear(marks: &mut [u8])
    ensures { marks.new ≡ replicate (length marks.old) 0 }
{
    marks.fill(0);
}

// Whether every record is marked, of any tables that these are the marks of.
fn all_reached(marks_exprs: &[u8], marks_stmts: &[u8], marks_decls: &[u8]) -> bool
    ensures { (h : Heap) → Sized h marks_exprs.now marks_stmts.now marks_decls.now → Reached result h (marks_of marks_exprs.now marks_stmts.now marks_decls.now) }
{
    all_marked(marks_exprs) && all_marked(marks_stmts) && all_marked(marks_decls)
}

// Marks the rows and the spares, and looks at every record in turn.
fn mark_all(
    roots: Roots,
    pools: &Pools,
    tables: Lent,
    marks_exprs: &mut [u8],
    marks_stmts: &mut [u8],
    marks_decls: &mut [u8],
) -> bool
    requires short { Short (heap tables) }
    requires sized { Sized (heap tables) marks_exprs.old marks_stmts.old marks_decls.old }
    requires blank { Blank marks_exprs.old × Blank marks_stmts.old × Blank marks_decls.old }
    ensures { Decides result (RowsHeld (heap tables.entry) pools.now roots) }
{
    mark_roots(roots, tables, marks_exprs, marks_stmts, marks_decls).is_some()
        && mark_pools(pools, tables, marks_exprs, marks_stmts, marks_decls)
        && all_reached(marks_exprs, marks_stmts, marks_decls)
}

// The same, with the marks of the three tables in one slice.
fn mark_tables(roots: Roots, pools: &Pools, tables: Lent, marks: &mut [u8]) -> bool
    requires short { Short (heap tables) }
    requires enough { length tables.exprs.now + (length tables.stmts.now + length tables.decls.now) ≤ length marks.old }
    requires blank { Blank marks.old }
    ensures { Decides result (RowsHeld (heap tables.entry) pools.now roots) }
{
    let (marks_exprs, others) = marks.split_at_mut(tables.exprs.len());
    let (marks_stmts, rest) = others.split_at_mut(tables.stmts.len());
    let (marks_decls, _) = rest.split_at_mut(tables.decls.len());
    mark_all(roots, pools, tables, marks_exprs, marks_stmts, marks_decls)
}

// Whether the tables hold these rows and spares, each record once. The marks are left cleared.
fn rows_held(roots: Roots, pools: &Pools, tables: Lent, marks: &mut [u8]) -> bool
    requires short { Short (heap tables) }
    requires enough { length tables.exprs.now + (length tables.stmts.now + length tables.decls.now) ≤ length marks.old }
    ensures held { Decides result (RowsHeld (heap tables.entry) pools.now roots) }
    ensures cleared { marks.new ≡ replicate (length marks.old) 0 }
{
    clear(marks);
    let held = mark_tables(roots, pools, tables, marks);
    clear(marks);
    held
}

// Where the body begins: a draft that is still read has none.
fn body_place(stage: Stage) -> u32
    ensures { result ≡ body_place stage }
{
    match stage {
        Stage::Reading(_) => NOWHERE,
        Stage::Complete(at) => at,
    }
}

// A complete body has left nothing on the stacks.
fn stands_alone(draft: &Draft) -> bool
    ensures { ToldAlone result draft.now }
{
    match draft.stage {
        Stage::Reading(_) => true,
        Stage::Complete(_) => draft.exprs.count == 0
            && draft.stmts.count == 0
            && draft.decls.count == 0,
    }
}

// Whether the tables hold this draft.
pub fn draft_held(draft: &Draft, tables: Lent, marks: &mut [u8]) -> bool
    requires short { Short (heap tables) }
    requires enough { length tables.exprs.now + (length tables.stmts.now + length tables.decls.now) ≤ length marks.old }
    ensures held { DecidesDraft result (heap tables.entry) draft.now }
    ensures cleared { marks.new ≡ replicate (length marks.old) 0 }
{
    let roots = Roots {
        exprs: draft.exprs,
        stmts: draft.stmts,
        decls: draft.decls,
        body: body_place(draft.stage),
    };
    rows_held(roots, &draft.pools, tables, marks) && stands_alone(draft)
}

// Whether the tables hold this sheet.
pub fn whole_held(whole: &Whole, tables: Lent, marks: &mut [u8]) -> bool
    requires short { Short (heap tables) }
    requires enough { length tables.exprs.now + (length tables.stmts.now + length tables.decls.now) ≤ length marks.old }
    ensures held { DecidesWhole result (heap tables.entry) whole.now }
    ensures cleared { marks.new ≡ replicate (length marks.old) 0 }
{
    let none = Stack {
        top: NOWHERE,
        count: 0,
    };
    let roots = Roots {
        exprs: none,
        stmts: none,
        decls: none,
        body: whole.body,
    };
    rows_held(roots, &whole.pools, tables, marks)
}
