// A draft only takes unknowns, and settling uses it up.
ghost use Rattle.std.specs.Prelude.{◌≡◌, ◌≤◌, [], All, IfOk, length};
ghost use Rattle.calculus.specs.Limits.{most_unknowns};
ghost use Rattle.calculus.specs.Account.{declare_answer, declared, settled};
ghost use Rattle.rows.specs.Spans.{InOrder, Near};

use crate::tickets::Ticket;
use calculus::Refusal;
use rows::Blank;
use std::alloc::{AllocError, Global};
use std::marker::Model;

// A contract sees the ranges declared so far.
#[derive(Drop)]
pub struct Draft {
    // the ranges declared so far, and all the memory that the ticket will use
    blank: Blank,
}

impl Model for Draft {
    ghost use Rattle.std.specs.Prelude.{List};
    ghost use Rattle.calculus.specs.declared.ranges.Range.{Range};

    ghost Value = { List Range };

    ghost view = { λ d. d.blank };
}

impl Draft {
    // A draft with no unknown. It reserves all memory, so that no later call can want any.
    pub fn new(heap: Global) -> Result<Draft, AllocError>
        ensures ranges { IfOk result (λ d. d ≡ []) }
    {
        let blank = Blank::new(heap)?;
        Ok(Draft { blank })
    }

    // Gives the next unknown its range and answers its number, from 0.
    pub fn declare(&mut self, low: i32, high: i32) -> Result<usize, Refusal>
        ensures answer { result ≡ declare_answer self.old low high }
        ensures ranges { self.new ≡ declared self.old low high }
        ensures few { length self.new ≤ most_unknowns }
        ensures ordered { All InOrder self.new }
        ensures near { All Near self.new }
    {
        self.blank.declare(low, high)
    }

    // How many unknowns are declared so far.
    pub fn unknowns(&self) -> usize
        ensures value { result ≡ length self.now }
        ensures few { result ≤ most_unknowns }
        ensures ordered { All InOrder self.now }
        ensures near { All Near self.now }
    {
        self.blank.unknowns()
    }

    // The ticket with these unknowns; no row and no mark stands.
    pub fn settle(self) -> Ticket
        ensures account { result ≡ settled self }
        ensures few { length self ≤ most_unknowns }
        ensures ordered { All InOrder self }
        ensures near { All Near self }
    {
        let Draft { blank } = self;
        Ticket::over(blank.settle())
    }
}
