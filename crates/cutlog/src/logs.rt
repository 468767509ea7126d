// What a log is, whatever it is made of.
ghost use Rattle.std.specs.Prelude.{◌≡◌, length};
ghost use Rattle.calculus.specs.Logs.{Logbook, KeepsBook, append_answer, appended, begun, entries, line_at, line_row};
ghost use Rattle.calculus.specs.Rows.{coef};

use calculus::{Fields, Refusal};

// A log by its book: for how many unknowns it is, for how many lines it has room, and the lines that it holds.
pub trait Log {
    ghost book: { Self → Logbook };

    // For how many unknowns the log is.
    fn unknowns(&self) -> usize
        ensures { result ≡ (book self.now).unknowns };

    // For how many lines it has room.
    fn capacity(&self) -> usize
        ensures { result ≡ (book self.now).capacity };

    // How many lines it holds.
    fn count(&self) -> usize
        ensures { result ≡ length (book self.now).lines };

    // Holds no line any more.
    fn begin(&mut self)
        ensures book { book self.new ≡ begun (book self.old) };

    // One line more, as it is given; answers its number.
    fn add(&mut self, fields: Fields, row: &[i32]) -> Result<usize, Refusal>
        ensures answer { result ≡ append_answer (book self.old) row.now }
        ensures book { book self.new ≡ appended (book self.old) fields row.now };

    // The fields of a line; all 0 where it is not held.
    fn fields(&self, line: usize) -> Fields
        ensures { result ≡ (line_at (book self.now).lines line).fields };

    // An entry of a line's row: a coefficient, or behind them the constant; 0 where line or entry is not held.
    fn entry(&self, line: usize, place: usize) -> i32
        ensures { result ≡ coef (entries (line_row (book self.now).lines line)) place };

    ghost kept: { (l : Self) → KeepsBook (book l) };
}
