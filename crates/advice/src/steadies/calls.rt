// Making a steady adviser, and what it answers.
ghost use Rattle.advice.specs.Making.{made_for};
ghost use Rattle.calculus.specs.Advice.{steady};
ghost use Rattle.std.specs.Prelude.{◌≡◌};
ghost use Rattle.calculus.proofs.Advising.{three_advise};

use super::super::advisers::Adviser;
use super::super::ends::Ends;
use super::super::limits::at_most_limit;
use super::Steady;
use calculus::{Refusal, Side};

impl Steady {
    // A steady adviser for so many unknowns; more than a ticket may have are refused.
    pub fn new(unknowns: usize) -> Result<Steady, Refusal>
        ensures { result ≡ made_for unknowns (record { unknowns = unknowns }) }
    {
        at_most_limit(unknowns)?;
        Ok(Steady { unknowns })
    }
}

impl Adviser for Steady {
    ghost advice = { λ a. steady a.unknowns };

    ghost kept = { λ a. three_advise.0 a.unknowns };

    #[tactic(auto, using(crate::proofs::Opens::steady_long))]
    fn unknowns(&self) -> usize {
        self.unknowns
    }

    // As the blaming adviser's, over numbers in place of names; one function of both would take the iterator's laws as premises.
    fn ask(&self, ends: Ends<'_>) -> Option<(usize, Side)> {
        if !ends.have_length(self.unknowns) {
            return None;
        }
        (0..self.unknowns)
            .find(|unknown| !ends.is_fixed(*unknown))
            .map(|unknown| (unknown, Side::Low))
    }

    fn told(&mut self, _unknown: usize) {}
}
