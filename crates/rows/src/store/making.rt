// A blank, its unknowns, and settling.
ghost use Rattle.std.specs.Prelude.{◌≡◌, ◌≤◌, [], All, IfOk, length};
ghost use Rattle.calculus.specs.Limits.{most_unknowns};
ghost use Rattle.calculus.specs.Account.{bad_range, declare_answer, declared, settled};
ghost use Rattle.rows.specs.Spans.{InOrder, Near};

use super::{Blank, Rows, Span};
use calculus::{MAX_END, MAX_MARKS, MAX_ROWS, MAX_UNKNOWNS, Range, Refusal};
use forms::is_near;
use std::alloc::{AllocError, Global};

// Whether an end lies outside its limits, or low above high.
fn is_bad_range(low: i32, high: i32) -> bool
    ensures { result ≡ bad_range low high }
{
    high < low || !is_near(MAX_END, i64::from(low)) || !is_near(MAX_END, i64::from(high))
}

impl Blank {
    // No unknown yet, and memory for all that a ticket may hold. The one call that can want memory.
    pub fn new(heap: Global) -> Result<Blank, AllocError>
        ensures ranges { IfOk result (λ b. b ≡ []) }
    {
        let spans = Vec::with_capacity(heap, MAX_UNKNOWNS)?;
        let rows = Vec::with_capacity(heap, MAX_ROWS)?;
        let marks = Vec::with_capacity(heap, MAX_MARKS)?;
        Ok(Blank { spans, rows, marks })
    }

    // The next unknown, with its range; answers its number.
    pub fn declare(&mut self, low: i32, high: i32) -> Result<usize, Refusal>
        ensures answer { result ≡ declare_answer self.old low high }
        ensures ranges { self.new ≡ declared self.old low high }
        ensures few { length self.new ≤ most_unknowns }
        ensures ordered { All InOrder self.new }
        ensures near { All Near self.new }
    {
        let unknown = self.spans.len();
        if unknown >= MAX_UNKNOWNS {
            return Err(Refusal::Shape);
        }
        if is_bad_range(low, high) {
            return Err(Refusal::Range);
        }
        self.spans.push_reserved(Span {
            range: Range { low, high },
        });
        Ok(unknown)
    }

    // How many unknowns are declared so far.
    pub fn unknowns(&self) -> usize
        ensures value { result ≡ length self.now }
        ensures few { result ≤ most_unknowns }
        ensures ordered { All InOrder self.now }
        ensures near { All Near self.now }
    {
        self.spans.len()
    }

    // Ends the declaring; no row and no mark stands yet.
    pub fn settle(self) -> Rows
        ensures account { result ≡ settled self }
        ensures few { length self ≤ most_unknowns }
        ensures ordered { All InOrder self }
        ensures near { All Near self }
    {
        let Blank { spans, rows, marks } = self;
        Rows { spans, rows, marks }
    }
}
