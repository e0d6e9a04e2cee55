// The host that knows literals.
ghost use Rattle.hosts.specs.Known.{bare};
ghost use Rattle.hosts.specs.Laws.{bare_lawful};

use crate::host::Host;
use crate::literal::{kind_truth, record_at};
use records::ExprRecord;

#[derive(Clone, Copy)]
pub struct Bare;

impl Host for Bare {
    ghost meaning = { λ _. bare };

    ghost lawful = { λ h. bare_lawful };

    fn is_harmless(&self, exprs: &[ExprRecord], at: u32) -> bool {
        self.truth(exprs, at).is_some()
    }

    fn is_undefined(&self, _exprs: &[ExprRecord], _at: u32) -> bool {
        false
    }

    fn truth(&self, exprs: &[ExprRecord], at: u32) -> Option<bool> {
        kind_truth(record_at(exprs, at)?.kind)
    }
}
