// Add, mark and return.
ghost use Rattle.std.specs.Prelude.{◌≡◌, not, ◌||◌};
ghost use Rattle.calculus.specs.Account.{add_answer, added, heavy, mark_answer, marked, return_answer, returned};
ghost use Rattle.calculus.specs.Arithmetic.{near};
ghost use Rattle.calculus.specs.Limits.{added_constant_limit};
ghost use Rattle.calculus.specs.Rows.{doubled};
ghost use Rattle.forms.specs.Seen.{seen};

use super::{Mark, Rows};
use crate::held::Row;
use calculus::{MAX_COEFFICIENT, MAX_CONSTANT, MAX_MARKS, MAX_ROWS, Refusal};
use forms::{Reduced, RowView, is_near};

// Whether a coefficient of the list lies outside its limits.
fn has_heavy(coefficients: &[i32]) -> bool
    ensures { result ≡ heavy coefficients.now }
{
    coefficients
        .iter()
        .any(|c| !is_near(MAX_COEFFICIENT, i64::from(*c)))
}

// Whether a number of the row lies outside its limits.
fn is_overweight(coefficients: &[i32], constant: i64) -> bool
    ensures { result ≡ (heavy coefficients.now || not (near added_constant_limit constant)) }
{
    has_heavy(coefficients) || !is_near(MAX_CONSTANT, constant)
}

impl Rows {
    // Whether a double of the row stands. What the row is divided by is worked out once, and not at all where no row stands.
    fn has_double(&self, added: RowView<'_>) -> bool
        ensures { result ≡ doubled self.now.rows (seen added.entry) }
    {
        if self.rows.is_empty() {
            return false;
        }
        let added = Reduced::of(added);
        self.rows
            .iter()
            .any(|row| Reduced::of(row.view()).is_double(&added))
    }

    // One row more, kept as it is given. The constant is wider than in a row that stands, and within its limits where it is
    // cast: `try_from` would need an answer to what cannot come.
    pub fn add(&mut self, label: u8, coefficients: &[i32], constant: i64) -> Result<(), Refusal>
        ensures answer { result ≡ add_answer self.old label coefficients.now constant }
        ensures account { self.new ≡ added self.old label coefficients.now constant }
    {
        if coefficients.len() != self.spans.len() {
            return Err(Refusal::Shape);
        }
        if is_overweight(coefficients, constant) {
            return Err(Refusal::Weight);
        }
        if label == 0 {
            return Err(Refusal::Label);
        }
        let row = RowView {
            label,
            coefficients,
            constant: constant as i32,
        };
        if self.has_double(row) {
            return Err(Refusal::Double);
        }
        if self.rows.len() >= MAX_ROWS {
            return Err(Refusal::Full);
        }
        self.rows.push_reserved(Row::of(row));
        Ok(())
    }

    // Notes how many rows stand.
    pub fn mark(&mut self) -> Result<(), Refusal>
        ensures answer { result ≡ mark_answer self.old }
        ensures account { self.new ≡ marked self.old }
    {
        if self.marks.len() >= MAX_MARKS {
            return Err(Refusal::Marks);
        }
        self.marks.push_reserved(Mark {
            rows: self.rows.len(),
        });
        Ok(())
    }

    // Drops the rows added since the newest mark, and that mark.
    pub fn return_to_mark(&mut self) -> Result<(), Refusal>
        ensures answer { result ≡ return_answer self.old }
        ensures account { self.new ≡ returned self.old }
    {
        let mark = self.marks.pop().ok_or(Refusal::Unmarked)?;
        self.rows.truncate(mark.rows);
        Ok(())
    }
}
