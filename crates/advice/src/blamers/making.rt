// Making a blaming adviser.
ghost use Rattle.advice.specs.Blamed.{Made};

use super::super::limits::at_most_limit;
use super::super::unmade::Unmade;
use super::Blaming;
use super::names::by_number;
use std::alloc::Global;

impl Blaming {
    // A blaming adviser for so many unknowns; more than a ticket may have are refused, and else memory may be wanting.
    #[tactic(auto, using(crate::proofs::Fronts::at_first))]
    pub fn new(heap: Global, unknowns: usize) -> Result<Blaming, Unmade>
        ensures { Made unknowns result }
    {
        at_most_limit(unknowns)?;
        let names = by_number(heap, unknowns)?;
        Ok(Blaming { names })
    }
}
