// Why an adviser was not made.
ghost use Rattle.std.specs.Prelude.{◌≡◌};
ghost use Rattle.advice.specs.declared.unmade.Unmade.TheVariants.{NoMemory, Refused as RefusedBy};

use calculus::Refusal;
use std::alloc::AllocError;

// A refusal with its number, or want of memory, which has none.
#[derive(Clone, Copy, Debug, PartialEq, Eq)]
pub enum Unmade {
    Refused(Refusal),
    NoMemory,
}

impl From<Refusal> for Unmade {
    ghost from_gives = { λ refusal unmade. unmade ≡ RefusedBy refusal };

    fn from(refusal: Refusal) -> Unmade {
        Unmade::Refused(refusal)
    }
}

impl From<AllocError> for Unmade {
    ghost from_gives = { λ _ unmade. unmade ≡ NoMemory };

    fn from(_error: AllocError) -> Unmade {
        Unmade::NoMemory
    }
}
