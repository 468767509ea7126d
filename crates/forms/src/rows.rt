// A row under its label, lent.
ghost use Rattle.std.specs.Prelude.{Some};
ghost use Rattle.calculus.specs.Wording.{row_worded};

use std::fmt;

#[derive(Clone, Copy, Debug, PartialEq, Eq)]
pub struct RowView<'a> {
    pub label: u8,
    pub coefficients: &'a [i32],
    pub constant: i32,
}

// The label, the coefficients and the constant, with single spaces between.
impl<'a> fmt::Display for RowView<'a> {
    ghost output = { λ v. Some (row_worded v.label v.coefficients.now v.constant) };

    fn fmt<W: fmt::Write>(&self, f: &mut fmt::Formatter<W>) -> fmt::Result {
        write!(f, "{}", self.label)?;
        for coefficient in self.coefficients {
            write!(f, " {coefficient}")?;
        }
        write!(f, " {}", self.constant)
    }
}
