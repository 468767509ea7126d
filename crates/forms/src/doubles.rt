// Reduced forms and doubles. Reduced rows are compared and never built.
ghost use Rattle.std.specs.Prelude.{◌≡◌, ◌<◌};
ghost use Rattle.std.specs.List.{list_all, zip};
ghost use Rattle.calculus.specs.Arithmetic.{floor, same_number};
ghost use Rattle.forms.specs.Seen.{seen};
ghost use Rattle.calculus.specs.Rows.{double, reduced, row_divisor, same_numbers};

use crate::arithmetic::{ceil_div, common_divisor, floor_div};
use crate::rows::RowView;
use std::marker::Model;

// A row with what it is divided by in its reduced form, and with the constant of that form: a row that is compared with many has both
// worked out once. A contract sees the row.
#[derive(Drop)]
pub struct Reduced<'a> {
    row: RowView<'a>,
    by: u32,
    constant: i64,
}

impl<'a> Model for Reduced<'a> {
    ghost use Rattle.std.specs.Prelude.{◌≡◌, ◌<◌};
    ghost use Rattle.calculus.specs.Arithmetic.{ceiling};
    ghost use Rattle.calculus.specs.Rows.{Standing, row_divisor};
    ghost use Rattle.forms.specs.Seen.{seen};

    ghost Value = { Standing };

    ghost view = { λ r. seen r.row };

    ghost invariant = { λ r. (0 < r.by) × (r.by ≡ row_divisor r.row.coefficients.now) × (r.constant ≡ ceiling r.row.constant r.by) };
}

// What the row is divided by in its reduced form, at least 1.
fn divisor_of(coefficients: &[i32]) -> u32
    ensures value { result ≡ row_divisor coefficients.now }
    ensures bound { 0 < result }
{
    coefficients
        .iter()
        .fold(0, |common, c| common_divisor(common, c.unsigned_abs()))
        .max(1)
}

// Whether two numbers are equal. By its own name: with `==` in the chain below the proof does not close.
fn is_same(y: i64, z: i64) -> bool
    ensures { result ≡ same_number y z }
{
    y == z
}

impl<'a> Reduced<'a> {
    // A row, to be compared.
    pub fn of(row: RowView<'a>) -> Reduced<'a>
        ensures { result ≡ seen row.entry }
    {
        let by = divisor_of(row.coefficients);
        Reduced {
            row,
            by,
            constant: ceil_div(row.constant, by),
        }
    }

    // Whether the coefficients of two reduced forms are equal, pair by pair.
    fn agrees_with(&self, other: &Reduced<'_>) -> bool
        ensures { result ≡ list_all (λ p. same_number (floor p.0 (row_divisor self.now.row.coefs)) (floor p.1 (row_divisor other.now.row.coefs))) (zip self.now.row.coefs other.now.row.coefs) }
    {
        self.row.coefficients.iter().zip(other.row.coefficients).all(|(c, d)| is_same(
            floor_div(*c, self.by),
            floor_div(*d, other.by),
        ))
    }

    // Whether the coefficients of two reduced forms are equal.
    fn has_coefficients_of(&self, other: &Reduced<'_>) -> bool
        ensures { result ≡ same_numbers (reduced self.now.row).coefs (reduced other.now.row).coefs }
    {
        self.row.coefficients.len() == other.row.coefficients.len() && self.agrees_with(other)
    }

    // Whether one row is a double of the other. The constants first, which tell most rows apart.
    pub fn is_double(&self, other: &Reduced<'_>) -> bool
        ensures { result ≡ double self.now other.now }
    {
        is_same(self.constant, other.constant) && self.has_coefficients_of(other)
    }
}

impl RowView<'_> {
    // Whether one row is a double of the other.
    pub fn is_double(self, other: RowView<'_>) -> bool
        ensures { result ≡ double (seen self.entry) (seen other.entry) }
    {
        Reduced::of(self).is_double(&Reduced::of(other))
    }
}
