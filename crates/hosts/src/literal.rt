// Literals: numbers and words.
ghost use Rattle.std.specs.Prelude.{◌≡◌, slice_get};
ghost use Rattle.hosts.specs.Walked.{kind_truth};

use records::ExprRecord;
use script::{ExpressionKind, Word};

// The record at a place, if there is one.
pub fn record_at(exprs: &[ExprRecord], at: u32) -> Option<ExprRecord>
    ensures { result ≡ slice_get exprs.now at }
{
    exprs.get(at as usize).copied()
}

// The truth of a literal; other kinds are not known.
pub fn kind_truth(kind: ExpressionKind) -> Option<bool>
    ensures { result ≡ kind_truth kind }
{
    match kind {
        ExpressionKind::Number(bits) => Some(bits != 0),
        ExpressionKind::Word(Word::True) => Some(true),
        ExpressionKind::Word(Word::False | Word::Null) => Some(false),
        _ => None,
    }
}
