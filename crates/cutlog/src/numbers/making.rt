// Opened on a memory, and taken apart.
ghost use Rattle.std.specs.Prelude.{◌≡◌, MatchResult};
ghost use Rattle.cutlog.specs.Books.{Opened, Refused, memory_of};

use super::{Numbers, Unopened};
use calculus::{MAX_UNKNOWNS, Refusal};

impl Numbers {
    // An empty log on the memory, whatever it holds; nothing is written.
    pub fn open(cells: Vec<i64>, unknowns: usize) -> Result<Numbers, Unopened>
        ensures { MatchResult result (λ l. Opened unknowns cells.items l) (λ u. Refused unknowns cells.items u) }
    {
        if unknowns > MAX_UNKNOWNS {
            return Err(Unopened {
                refusal: Refusal::Shape,
                cells,
            });
        }
        Ok(Numbers {
            cells,
            unknowns,
            held: 0,
        })
    }

    // The memory again.
    pub fn into_cells(self) -> Vec<i64>
        ensures { result.items ≡ memory_of self }
    {
        let Numbers { cells, .. } = self;
        cells
    }
}
