// Rows of declarators, one behind another.
ghost use Rattle.std.specs.Prelude.{List, [], ◌∷◌};
ghost use Rattle.script.specs.Tree.{Declarators};
ghost use Rattle.records.specs.declared.record.ExprRecord.{ExprRecord as ExprEntry};
ghost use Rattle.records.specs.declared.record.Pools.{Pools};
ghost use Rattle.records.specs.declared.record.StmtRecord.{StmtRecord as StmtEntry};
ghost use Rattle.records.specs.Embedding.{declarators_row};
ghost use Rattle.records.specs.Heap.{decl_at};
ghost use Rattle.records.specs.Readable.{tables};
ghost use Rattle.rules.specs.Declarations.{append_declarators};
ghost use Rattle.moves.specs.Moved.{Turns};

use moves::join_rows;
use records::DeclRecord;

// Puts a row behind another, and tells where they begin.
pub fn append_names(decls: &mut [DeclRecord], row: u32, more: u32) -> u32
    ensures { (es : List ExprEntry) (ss : List StmtEntry) (p : Pools) (ds xs : Declarators) →
        Turns (tables es ss decls.old) p (tables es ss decls.new) p
        [] ((decl_at row, declarators_row ds) ∷ (decl_at more, declarators_row xs) ∷ [])
        ((decl_at result, declarators_row (append_declarators ds xs)) ∷ []) }
{
    join_rows(decls, row, more)
}
