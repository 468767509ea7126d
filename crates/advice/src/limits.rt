// How many unknowns an adviser may be for.
ghost use Rattle.advice.specs.Making.{made_for};
ghost use Rattle.std.specs.Prelude.{◌≡◌};

use calculus::{MAX_UNKNOWNS, Refusal};

// Refuses more unknowns than a ticket may have.
pub(crate) fn at_most_limit(unknowns: usize) -> Result<(), Refusal>
    ensures { result ≡ made_for unknowns tt }
{
    if unknowns > MAX_UNKNOWNS {
        return Err(Refusal::Shape);
    }
    Ok(())
}
