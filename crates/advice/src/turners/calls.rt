// Turning an adviser, and what a turned one answers.
ghost use Rattle.std.specs.Prelude.{◌≡◌};
ghost use Rattle.calculus.specs.Advice.{turned, turned_side};
ghost use Rattle.calculus.proofs.Advising.{three_advise};

use super::super::advisers::Adviser;
use super::super::ends::Ends;
use super::Turned;
use calculus::Side;

// The other side. A `match` says it in the two words of the rule; an operator of `Side` would hide them.
fn other(side: Side) -> Side
    ensures { result ≡ turned_side side }
{
    match side {
        Side::Low => Side::High,
        Side::High => Side::Low,
    }
}

impl<A: Adviser> Turned<A> {
    // A turned adviser over another.
    pub fn over(inner: A) -> Turned<A>
        ensures { result.inner ≡ inner }
    {
        Turned { inner }
    }

    // The adviser inside.
    pub fn into_inner(self) -> A
        ensures { result ≡ self.inner }
    {
        let Turned { inner } = self;
        inner
    }
}

impl<A: Adviser> Adviser for Turned<A> {
    ghost advice = { λ t. turned (A.Adviser.advice t.inner) };

    ghost kept = { λ t. three_advise.2 (A.Adviser.advice t.inner) (A.Adviser.kept t.inner) };

    fn unknowns(&self) -> usize {
        self.inner.unknowns()
    }

    fn ask(&self, ends: Ends<'_>) -> Option<(usize, Side)> {
        self.inner
            .ask(ends)
            .map(|(unknown, side)| (unknown, other(side)))
    }

    #[tactic(auto, using(crate::proofs::Turning::told_turned))]
    fn told(&mut self, unknown: usize) {
        self.inner.told(unknown);
    }
}
