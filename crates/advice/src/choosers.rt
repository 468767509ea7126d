// Any of the advisers that the program uses.
ghost use Rattle.advice.specs.Chosen.{any_of};
ghost use Rattle.advice.specs.ChosenKept.{any_advises};

use super::advisers::Adviser;
use super::blamers::Blaming;
use super::ends::Ends;
use super::steadies::Steady;
use super::turners::Turned;
use calculus::Side;

// One of the four, chosen when the program runs: an enum with matches, since a dyn value may not be handed out.
#[derive(Drop)]
pub enum AnyAdviser {
    Steady(Steady),
    Blaming(Blaming),
    TurnedSteady(Turned<Steady>),
    TurnedBlaming(Turned<Blaming>),
}

impl Adviser for AnyAdviser {
    ghost advice = { λ a. any_of a };

    ghost kept = { λ a. any_advises a };

    fn unknowns(&self) -> usize {
        match self {
            AnyAdviser::Steady(a) => a.unknowns(),
            AnyAdviser::Blaming(a) => a.unknowns(),
            AnyAdviser::TurnedSteady(a) => a.unknowns(),
            AnyAdviser::TurnedBlaming(a) => a.unknowns(),
        }
    }

    fn ask(&self, ends: Ends<'_>) -> Option<(usize, Side)> {
        match self {
            AnyAdviser::Steady(a) => a.ask(ends),
            AnyAdviser::Blaming(a) => a.ask(ends),
            AnyAdviser::TurnedSteady(a) => a.ask(ends),
            AnyAdviser::TurnedBlaming(a) => a.ask(ends),
        }
    }

    fn told(&mut self, unknown: usize) {
        match self {
            AnyAdviser::Steady(a) => a.told(unknown),
            AnyAdviser::Blaming(a) => a.told(unknown),
            AnyAdviser::TurnedSteady(a) => a.told(unknown),
            AnyAdviser::TurnedBlaming(a) => a.told(unknown),
        }
    }
}
