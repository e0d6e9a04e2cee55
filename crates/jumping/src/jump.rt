// The jumps with an argument: throw and return.
ghost use Rattle.std.specs.Prelude.{◌≡◌, List, [], ◌∷◌};
ghost use Rattle.script.specs.Tree.{Stmts, stmt_then};
ghost use Rattle.records.specs.declared.record.DeclRecord.{DeclRecord as DeclEntry};
ghost use Rattle.records.specs.declared.record.ExprRecord.{ExprRecord as ExprEntry};
ghost use Rattle.records.specs.declared.record.Pools.{Pools as PoolsEntry};
ghost use Rattle.records.specs.Embedding.{stmts_row};
ghost use Rattle.records.specs.Heap.{stmt_at};
ghost use Rattle.records.specs.Readable.{tables};
ghost use Rattle.moves.specs.Moved.{Turns};
ghost use Rattle.jumping.specs.Going.{Argument, in_hand, rule};
ghost use Rattle.jumping.specs.Meet.{TellsMayMerge};
ghost use Rattle.jumping.specs.Newest.{kind_of};

use moves::set;
use pool::NOWHERE;
use predicates::{Holder, conditional_expression_count_exceeded};
use records::{ExprRecord, StmtRecord};
use script::StatementKind;

// A return may be bare, and then it matters what holds the list that it stands in.
#[derive(Clone, Copy)]
pub enum Jump {
    Throw,
    Return(Holder),
}

impl Jump {
    pub fn kind(self) -> StatementKind
        ensures { result ≡ kind_of self }
    {
        match self {
            Jump::Throw => StatementKind::Throw,
            Jump::Return(_) => StatementKind::Return,
        }
    }

    // Whether the jump with this argument may take in the one before it, if not both are bare.
    pub fn may_merge(self, exprs: &[ExprRecord], value: u32) -> bool
        ensures { TellsMayMerge self exprs.now value result }
    {
        if value == NOWHERE {
            return !matches!(self, Jump::Return(Holder::Body));
        }
        !conditional_expression_count_exceeded(exprs, value)
    }

    // The jump as the newest result.
    pub fn push(self, stmts: &mut [StmtRecord], at: u32, value: u32, results: u32) -> u32
        ensures { (es : List ExprEntry) (ds : List DeclEntry) (p : PoolsEntry) (a : Argument self) (r : Stmts) →
            Turns (tables es stmts.old ds) p (tables es stmts.new ds) p
            (stmt_at at ∷ []) (in_hand (rule self) value results a r [])
            ((stmt_at result, stmts_row (stmt_then ((rule self).stmt a) r)) ∷ []) }
    {
        set(
            stmts,
            at,
            StmtRecord {
                kind: self.kind(),
                exprs: value,
                stmts: NOWHERE,
                decls: NOWHERE,
                next: results,
            },
        );
        at
    }
}
