// The log in numbers. A line takes its five fields, its coefficients and its constant, one number each.
ghost use Rattle.std.specs.Prelude.{◌≤◌, vec_len};
ghost use Rattle.calculus.specs.Limits.{most_unknowns};
ghost use Rattle.cutlog.specs.Cells.{fitting};

use calculus::Refusal;

mod calls;
mod cells;
mod changes;
mod making;
mod parts;

// The memory handed in, and how many lines of it are held. What the memory holds is read as 0 where it is no number of a line.
// Contracts name its book, as of every log, and its memory, which no other log has: one model would hide one of the two.
// It stays one list of numbers: it is handed in, handed back whole, and written nowhere but where a new line lies.
#[derive(Drop)]
pub struct Numbers {
    cells: Vec<i64>,
    unknowns: usize,
    held: usize,
    ghost few: { unknowns ≤ most_unknowns },
    ghost within: { held ≤ fitting unknowns (vec_len cells) },
}

// Why no log was opened, and the memory again.
#[derive(Debug, Drop)]
pub struct Unopened {
    pub refusal: Refusal,
    pub cells: Vec<i64>,
}
