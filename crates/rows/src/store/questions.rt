// Questions, which change nothing.
ghost use Rattle.std.specs.Prelude.{◌≡◌, ◌≤◌, All, IfSome, length, slice_get};
ghost use Rattle.std.specs.Option.{option_map};
ghost use Rattle.calculus.specs.Limits.{most_marks, most_rows, most_unknowns};
ghost use Rattle.calculus.specs.Rows.{Standing};
ghost use Rattle.forms.specs.Seen.{seen};
ghost use Rattle.rows.specs.Spans.{InOrder, Near};

use super::Rows;
use crate::held::Row;
use calculus::Range;
use forms::RowView;

impl Rows {
    // The number of unknowns.
    pub fn unknowns(&self) -> usize
        ensures value { result ≡ length self.now.ranges }
        ensures few { result ≤ most_unknowns }
        ensures ordered { All InOrder self.now.ranges }
        ensures near { All Near self.now.ranges }
    {
        self.spans.len()
    }

    // The range of an unknown, where there is one of that number.
    pub fn range(&self, unknown: usize) -> Option<Range>
        ensures value { result ≡ slice_get self.now.ranges unknown }
        ensures ordered { IfSome result InOrder }
        ensures near { IfSome result Near }
    {
        self.spans.get(unknown).map(|span| span.range)
    }

    // How many rows stand.
    pub fn len(&self) -> usize
        ensures value { result ≡ length self.now.rows }
        ensures few { result ≤ most_rows }
    {
        self.rows.len()
    }

    // How many marks stand.
    pub fn marks(&self) -> usize
        ensures value { result ≡ length self.now.marks }
        ensures few { result ≤ most_marks }
        ensures held { All (λ rows. rows ≤ most_rows) self.now.marks }
    {
        self.marks.len()
    }

    // The standing rows, in the order added.
    pub fn rows(&self) -> &[Row]
        ensures value { result.now ≡ self.now.rows }
        ensures wide { All (λ (s : Standing). length s.row.coefs ≡ length self.now.ranges) result.now }
    {
        self.rows.as_slice()
    }

    // The standing row at a place, in the order added, from 0.
    pub fn row(&self, place: usize) -> Option<RowView<'_>>
        ensures value { option_map seen result ≡ slice_get self.now.rows place }
        ensures wide { IfSome result (λ v. length v.coefficients.now ≡ length self.now.ranges) }
    {
        self.rows.get(place).map(Row::view)
    }
}
