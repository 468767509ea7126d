// A row that is held.
ghost use Rattle.std.specs.Prelude.{◌≡◌, ◌≤◌, length};
ghost use Rattle.calculus.specs.Limits.{most_unknowns};
ghost use Rattle.forms.specs.Seen.{seen};

use calculus::MAX_UNKNOWNS;
use forms::RowView;
use std::marker::Model;

// A row lies in the value itself, with room for as many coefficients as a ticket may have unknowns: the first `len` are its own.
#[derive(Drop)]
pub struct Row {
    label: u8,
    len: usize,
    coefficients: [i32; MAX_UNKNOWNS],
    constant: i32,
}

impl Model for Row {
    ghost use Rattle.std.specs.Prelude.{◌≤◌, take};
    ghost use Rattle.calculus.specs.Account.{standing};
    ghost use Rattle.calculus.specs.Limits.{most_unknowns};
    ghost use Rattle.calculus.specs.Rows.{Standing};

    ghost Value = { Standing };

    ghost view = { λ r. standing r.label (take r.len r.coefficients) r.constant };

    ghost invariant = { λ r. r.len ≤ most_unknowns };
}

impl Row {
    // The row that is lent, to be held.
    pub(crate) fn of(view: RowView<'_>) -> Row
        requires { length view.coefficients.now ≤ most_unknowns }
        ensures { result ≡ seen view.entry }
    {
        let len = view.coefficients.len();
        let mut coefficients = [0; MAX_UNKNOWNS];
        coefficients[..len].copy_from_slice(view.coefficients);
        Row {
            label: view.label,
            len,
            coefficients,
            constant: view.constant,
        }
    }

    // The row that is held, lent.
    pub fn view(&self) -> RowView<'_>
        ensures { seen result ≡ self.now }
    {
        RowView {
            label: self.label,
            coefficients: &self.coefficients[..self.len],
            constant: self.constant,
        }
    }
}
