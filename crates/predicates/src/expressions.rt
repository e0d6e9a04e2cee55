// Which expressions are literals, have a negated result, or are many conditionals in a row.
ghost use Rattle.std.specs.Prelude.{◌≡◌, get_or};
ghost use Rattle.records.specs.Heap.{blank_expr};
ghost use Rattle.rules.specs.Ifs.{has_negated_result};
ghost use Rattle.rules.specs.Literals.{is_literal, is_literal_value};
ghost use Rattle.rules.specs.Returns.{conditional_expression_count_exceeded};
ghost use Rattle.moves.specs.Read.{TellsExpr};

use moves::{last_of_row, record_at};
use records::ExprRecord;
use script::ExpressionKind;

// So many conditionals in a row are not made longer.
const CONDITIONAL_LIMIT: u32 = 500;

// Whether an expression is a literal.
pub fn is_literal(exprs: &[ExprRecord], at: u32) -> bool
    ensures { TellsExpr is_literal exprs.now at result }
{
    matches!(
        record_at(exprs, at).kind,
        ExpressionKind::Number(_) | ExpressionKind::Word(_)
    )
}

// Whether an expression is a literal, or `!` and `void` over one.
pub fn is_literal_value(exprs: &[ExprRecord], at: u32) -> bool
    ensures { TellsExpr is_literal_value exprs.now at result }
{
    let mut part = at;
    for _ in 0..exprs.len() {
        let expr = record_at(exprs, part);
        match expr.kind {
            ExpressionKind::Number(_) | ExpressionKind::Word(_) => return true,
            ExpressionKind::Not | ExpressionKind::Void => part = expr.first,
            _ => return false,
        }
    }
    false
}

// Whether an expression is a `!`, or a sequence that ends in one.
pub fn has_negated_result(exprs: &[ExprRecord], at: u32) -> bool
    ensures { TellsExpr has_negated_result exprs.now at result }
{
    let mut part = at;
    for _ in 0..exprs.len() {
        let expr = record_at(exprs, part);
        match expr.kind {
            ExpressionKind::Not => return true,
            ExpressionKind::Sequence => part = last_of_row(exprs, expr.first),
            _ => return false,
        }
    }
    false
}

// The third place of a row.
fn third_of_row(exprs: &[ExprRecord], row: u32) -> u32
    ensures { result ≡ (get_or exprs.now (get_or exprs.now row blank_expr).next blank_expr).next }
{
    let second = record_at(exprs, row).next;
    record_at(exprs, second).next
}

// Whether so many conditionals stand one in the other's last part.
pub fn conditional_expression_count_exceeded(exprs: &[ExprRecord], at: u32) -> bool
    ensures { TellsExpr conditional_expression_count_exceeded exprs.now at result }
{
    let mut part = at;
    for _ in 0..CONDITIONAL_LIMIT {
        let expr = record_at(exprs, part);
        let ExpressionKind::Conditional = expr.kind else {
            return false;
        };
        part = third_of_row(exprs, expr.first);
    }
    true
}
