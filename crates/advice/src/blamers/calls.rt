// What a blaming adviser answers, and how it changes.
ghost use Rattle.advice.specs.Blamed.{blaming_of};
ghost use Rattle.calculus.proofs.Advising.{three_advise};

use super::super::advisers::Adviser;
use super::super::ends::Ends;
use super::Blaming;
use super::names::{move_to_front, place_of};
use calculus::Side;

impl Adviser for Blaming {
    ghost advice = { λ b. blaming_of b };

    ghost kept = { λ b. record { orderly = b.orderly; keeps = (three_advise.1 0).keeps } };

    fn unknowns(&self) -> usize {
        self.names.len()
    }

    // By `?`: with `map` the choice is copied once more, which takes as long as the look.
    fn ask(&self, ends: Ends<'_>) -> Option<(usize, Side)> {
        if !ends.have_length(self.names.len()) {
            return None;
        }
        let unknown = self.names.iter().find(|unknown| !ends.is_fixed(**unknown))?;
        Some((*unknown, Side::Low))
    }

    #[tactic(auto, using(crate::proofs::Fronts::told_front, crate::proofs::Fronts::told_nowhere, std::proofs::lemmas::List::with_items_is))]
    fn told(&mut self, unknown: usize) {
        if let Some(place) = place_of(&self.names, unknown) {
            move_to_front(&mut self.names, place);
        }
    }
}
