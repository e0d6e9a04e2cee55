// The trait of hosts, and code that relies on its laws alone.
ghost use Rattle.std.specs.Prelude.{◌≡◌, true};
ghost use Rattle.run.specs.Completion.{State};
ghost use Rattle.hosts.specs.Meaning.{Meaning, Lawful, Leaves};
ghost use Rattle.hosts.specs.Asked.{Answers, AskedSo};
ghost use Rattle.hosts.specs.Told.{facts_of, So};

use records::ExprRecord;

// A host has a meaning, three facts of each expression, and its meaning is lawful.
// Asked about the expression at a place of the table, it answers that expression's fact.
// It refuses nothing: the table may have any content, and where no expression stands at the place any answer will do.
// It changes nothing: it and the table are lent to be read.
// Equal expressions get equal answers, since the fact is a function of the expression and not of its place.
pub trait Host {
    ghost meaning: { Self → Meaning };

    // Whether the expression ends normally in every state, without an event or a changed name.
    fn is_harmless(&self, exprs: &[ExprRecord], at: u32) -> bool
        ensures { Answers (meaning self.now).harmless exprs.now at result };

    // Whether its value is undefined, if it ends normally.
    fn is_undefined(&self, exprs: &[ExprRecord], at: u32) -> bool
        ensures { Answers (meaning self.now).undefined exprs.now at result };

    // Its truth in a test, where it is harmless and its truth is known.
    fn truth(&self, exprs: &[ExprRecord], at: u32) -> Option<bool>
        ensures { Answers (meaning self.now).truth exprs.now at result };

    ghost lawful: { (h : Self) → Lawful (meaning h) };
}

// All that a host tells of one expression.
#[derive(Clone, Copy)]
pub struct Facts {
    pub harmless: bool,
    pub undefined: bool,
    pub truth: Option<bool>,
}

// Whether an expression may be dropped where its value is not wanted: then it leaves every state as it is.
pub fn may_drop<H: Host>(host: &H, exprs: &[ExprRecord], at: u32) -> bool
    ensures answer { Answers (H.meaning host.now).harmless exprs.now at result }
    ensures leaves { AskedSo (λ e. result ≡ true → (s : State) → Leaves e s) exprs.now at }
{
    host.is_harmless(exprs, at)
}

// The three facts, and that each is so in every run.
pub fn all_facts<H: Host>(host: &H, exprs: &[ExprRecord], at: u32) -> Facts
    ensures answer { Answers (facts_of (H.meaning host.now)) exprs.now at result }
    ensures so { AskedSo (λ e. So result e) exprs.now at }
{
    Facts {
        harmless: host.is_harmless(exprs, at),
        undefined: host.is_undefined(exprs, at),
        truth: host.truth(exprs, at),
    }
}
