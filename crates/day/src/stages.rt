// Where a script stands.
use std::alloc::Global;
use std::marker::Model;
use ticket::{Draft, Ticket};

#[derive(Drop)]
pub(crate) enum Stage {
    Nothing,
    Drafting(Draft),
    Settled(Ticket),
}

// The stage that a script has come to, and what memory is taken from. A contract sees the state that the stage means.
#[derive(Drop)]
pub(crate) struct Day {
    pub(crate) stage: Stage,
    pub(crate) heap: Global,
}

impl Model for Day {
    ghost use Rattle.day.specs.Day.{State};

    ghost Value = { State };

    ghost use Rattle.day.specs.Stages.{state_of};

    ghost view = { λ d. state_of d.stage };
}

impl Day {
    ghost use Rattle.std.specs.Prelude.{◌≡◌};
    ghost use Rattle.day.specs.Day.{nothing};

    // No draft yet.
    pub(crate) fn new(heap: Global) -> Day
        ensures { result ≡ nothing }
    {
        Day {
            stage: Stage::Nothing,
            heap,
        }
    }
}
