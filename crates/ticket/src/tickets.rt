// A settled ticket takes rows, marks and returns.
ghost use Rattle.std.specs.Prelude.{◌≡◌};
ghost use Rattle.calculus.specs.Account.{add_answer, added, mark_answer, marked, return_answer, returned};

use calculus::Refusal;
use rows::Rows;
use std::marker::Model;

// A contract sees the account of the day.
#[derive(Drop)]
pub struct Ticket {
    // ranges, standing rows and marks
    rows: Rows,
}

impl Model for Ticket {
    ghost use Rattle.calculus.specs.Account.{Account};

    ghost Value = { Account };

    ghost view = { λ t. t.rows };
}

impl Ticket {
    pub(crate) fn over(rows: Rows) -> Ticket
        ensures { result ≡ rows }
    {
        Ticket { rows }
    }

    // Adds a row: label 1 to 255, one coefficient for each unknown, and a constant. Three parameters, as stations give them: the constant is wider
    // here than in a row that stands.
    pub fn add(&mut self, label: u8, coefficients: &[i32], constant: i64) -> Result<(), Refusal>
        ensures answer { result ≡ add_answer self.old label coefficients.now constant }
        ensures account { self.new ≡ added self.old label coefficients.now constant }
    {
        self.rows.add(label, coefficients, constant)
    }

    // Notes how many rows stand.
    pub fn mark(&mut self) -> Result<(), Refusal>
        ensures answer { result ≡ mark_answer self.old }
        ensures account { self.new ≡ marked self.old }
    {
        self.rows.mark()
    }

    // Drops the rows added since the newest mark, and that mark.
    pub fn return_to_mark(&mut self) -> Result<(), Refusal>
        ensures answer { result ≡ return_answer self.old }
        ensures account { self.new ≡ returned self.old }
    {
        self.rows.return_to_mark()
    }

    // The ranges, rows and marks, to be asked.
    pub fn rows(&self) -> &Rows
        ensures { result.now ≡ self.now }
    {
        &self.rows
    }
}
