// Lines added, read and copied, whatever the logs are made of.
ghost use Rattle.std.specs.Prelude.{◌≡◌, length};
ghost use Rattle.calculus.specs.Logs.{append_answer, appended, entries, fields_of, line_at, line_row};
ghost use Rattle.calculus.specs.Rows.{coef};
ghost use Rattle.calculus.specs.Tables.{table};

use crate::logs::Log;
use calculus::{Kind, Refusal};

// Adds a line of a kind; answers its number, which other lines can be made from. No log holds so many that the cast loses any: `try_from` would
// need an answer to what cannot come.
pub fn add_line<L: Log>(log: &mut L, kind: Kind, row: &[i32]) -> Result<u16, Refusal>
    ensures answer { result ≡ append_answer (L.Log.book log.old) row.now }
    ensures book { L.Log.book log.new ≡ appended (L.Log.book log.old) (fields_of kind) row.now }
{
    let line = log.add(kind.into(), row)?;
    Ok(line as u16)
}

// Writes the entries of a line into a list, 0 for those that are not held.
pub(crate) fn read_row<L: Log>(log: &L, line: usize, row: &mut [i32])
    ensures { row.new ≡ table (coef (entries (line_row (L.Log.book log.now).lines line))) (length row.old) }
{
    for (e, x) in row.iter_mut().enumerate() {
        *x = log.entry(line, e);
    }
}

// Adds a line of one log to another, by way of a list for its row.
pub fn copy_line<F: Log, T: Log>(
    from: &F,
    line: usize,
    to: &mut T,
    row: &mut [i32],
) -> Result<usize, Refusal>
    ensures row { row.new ≡ table (coef (entries (line_row (F.Log.book from.now).lines line))) (length row.old) }
    ensures answer { result ≡ append_answer (T.Log.book to.old) row.new }
    ensures book { T.Log.book to.new ≡ appended (T.Log.book to.old) (line_at (F.Log.book from.now).lines line).fields row.new }
{
    read_row(from, line, row);
    to.add(from.fields(line), row)
}
