// The host that knows nothing: the least that a host may be, and where a host of one's own can start from.
// It stays inside the crate.
ghost use Rattle.hosts.specs.Known.{silent};
ghost use Rattle.std.proofs.Common.{rules};

use crate::host::Host;
use records::ExprRecord;

#[derive(Clone, Copy)]
pub struct Silent;

impl Host for Silent {
    ghost meaning = { λ _. silent };

    ghost lawful = { Prim.search rules };

    fn is_harmless(&self, _exprs: &[ExprRecord], _at: u32) -> bool {
        false
    }

    fn is_undefined(&self, _exprs: &[ExprRecord], _at: u32) -> bool {
        false
    }

    fn truth(&self, _exprs: &[ExprRecord], _at: u32) -> Option<bool> {
        None
    }
}
