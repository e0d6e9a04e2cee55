// The host that also knows what is made of harmless parts.
ghost use Rattle.std.specs.Prelude.{◌≡◌, ◌≤◌, length};
ghost use Rattle.hosts.specs.Known.{reader, all_harmless, last_undefined, false_if};
ghost use Rattle.hosts.specs.Asked.{AnswersRow};
ghost use Rattle.hosts.specs.Walked.{decision, WalksOne, WalksRow, StepsLast, StepsTruth};
ghost use Rattle.hosts.specs.Laws.{reader_lawful};

use crate::host::Host;
use crate::literal::{kind_truth, record_at};
use records::{ExprRecord, along};
use script::ExpressionKind;
use std::ops::ControlFlow;

#[derive(Clone, Copy)]
pub struct Reader;

// What decides whether an expression is harmless.
#[derive(Clone, Copy)]
pub enum Decided {
    Always,
    ByParts,
    Never,
}

// Literals are harmless, names and calls never are; the others are what their parts are.
fn decision(kind: ExpressionKind) -> Decided
    ensures { result ≡ decision kind }
{
    match kind {
        ExpressionKind::Number(_) | ExpressionKind::Word(_) => Decided::Always,
        ExpressionKind::Name(_) | ExpressionKind::Assignment(_) | ExpressionKind::Call(_) =>
            Decided::Never,
        _ => Decided::ByParts,
    }
}

// Walks the expression at a place, one of the budget for each record, and tells what is left if it is harmless.
// The budget keeps the walk no longer than the table, whatever stands there.
#[cycle(walk_walk_row)]
fn walk(exprs: &[ExprRecord], at: u32, budget: usize) -> Option<usize>
    requires { budget ≤ length exprs.now }
    ensures { WalksOne exprs.now at budget result }
{
    let left = budget.checked_sub(1)?;
    let expr = record_at(exprs, at)?;
    match decision(expr.kind) {
        Decided::Always => Some(left),
        Decided::ByParts => walk_row(exprs, expr.first, left),
        Decided::Never => None,
    }
}

// The same of a row of expressions.
#[cycle(walk_walk_row)]
fn walk_row(exprs: &[ExprRecord], row: u32, budget: usize) -> Option<usize>
    requires { budget ≤ length exprs.now }
    ensures { WalksRow exprs.now row budget result }
{
    let mut left = budget;
    for (at, _) in along(exprs, row) {
        left = walk(exprs, at, left)?;
    }
    Some(left)
}

// A step along a row, or into a sequence that is its last item: the answer, or the place to go on at.
fn last_step(exprs: &[ExprRecord], at: u32) -> ControlFlow<bool, u32>
    ensures { StepsLast exprs.now at result }
{
    let Some(expr) = record_at(exprs, at) else {
        return ControlFlow::Break(false);
    };
    if (expr.next as usize) < exprs.len() {
        return ControlFlow::Continue(expr.next);
    }
    match expr.kind {
        ExpressionKind::Void => ControlFlow::Break(true),
        ExpressionKind::Sequence => ControlFlow::Continue(expr.first),
        _ => ControlFlow::Break(false),
    }
}

// Whether the last item of a row is undefined. No way to it has more steps than the table has records.
fn last_undefined(exprs: &[ExprRecord], row: u32) -> bool
    ensures { AnswersRow last_undefined exprs.now row result }
{
    let mut at = row;
    for _ in 0..exprs.len() {
        match last_step(exprs, at) {
            ControlFlow::Break(answer) => return answer,
            ControlFlow::Continue(to) => at = to,
        }
    }
    false
}

// A `void` is false if its part is harmless.
fn void_truth(exprs: &[ExprRecord], row: u32) -> Option<bool>
    ensures { AnswersRow (λ es. false_if (all_harmless es)) exprs.now row result }
{
    walk_row(exprs, row, exprs.len()).map(|_| false)
}

// A step into a `!`, or what is known of a `void` or a literal: the answer, or the place of the part whose truth is turned round.
fn truth_step(exprs: &[ExprRecord], at: u32) -> ControlFlow<Option<bool>, u32>
    ensures { StepsTruth exprs.now at result }
{
    let Some(expr) = record_at(exprs, at) else {
        return ControlFlow::Break(None);
    };
    match expr.kind {
        ExpressionKind::Not => ControlFlow::Continue(expr.first),
        ExpressionKind::Void => ControlFlow::Break(void_truth(exprs, expr.first)),
        kind => ControlFlow::Break(kind_truth(kind)),
    }
}

impl Host for Reader {
    ghost meaning = { λ _. reader };

    ghost lawful = { λ h. reader_lawful };

    fn is_harmless(&self, exprs: &[ExprRecord], at: u32) -> bool {
        walk(exprs, at, exprs.len()).is_some()
    }

    fn is_undefined(&self, exprs: &[ExprRecord], at: u32) -> bool {
        let Some(expr) = record_at(exprs, at) else {
            return false;
        };
        match expr.kind {
            ExpressionKind::Void => true,
            ExpressionKind::Sequence => last_undefined(exprs, expr.first),
            _ => false,
        }
    }

    fn truth(&self, exprs: &[ExprRecord], at: u32) -> Option<bool> {
        let mut part = at;
        let mut turn = false;
        for _ in 0..exprs.len() {
            match truth_step(exprs, part) {
                ControlFlow::Break(known) => return known.map(|truth| truth != turn),
                ControlFlow::Continue(to) => {
                    part = to;
                    turn = !turn;
                }
            }
        }
        None
    }
}
