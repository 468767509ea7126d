// The log in numbers is a log.
ghost use Rattle.std.specs.Prelude.{◌≡◌};
ghost use Rattle.calculus.specs.Logs.{append_answer, appended, begun};
ghost use Rattle.cutlog.specs.Books.{book_of, memory_after, memory_of, past};
ghost use Rattle.cutlog.specs.Kept.{numbers_keep};

use super::Numbers;
use super::cells::{entry_of, fields_of};
use crate::appending::next_line;
use crate::logs::Log;
use calculus::{Fields, MAX_LINES, Refusal};

impl Log for Numbers {
    ghost book = { book_of };

    ghost kept = { numbers_keep };

    fn unknowns(&self) -> usize {
        self.unknowns
    }

    fn capacity(&self) -> usize {
        (self.cells.len() / self.line_size()).min(MAX_LINES)
    }

    #[tactic(auto, using(crate::specs::Kept::lines_long))]
    fn count(&self) -> usize {
        self.held
    }

    // Writes nothing.
    fn begin(&mut self)
        ensures book { book_of self.new ≡ begun (book_of self.old) }
        ensures memory { memory_of self.new ≡ memory_of self.old }
    {
        self.hold(0);
    }

    // Writes the numbers of the new line, and no other.
    #[tactic(auto, using(crate::specs::Kept::lines_long))]
    fn add(&mut self, fields: Fields, row: &[i32]) -> Result<usize, Refusal>
        ensures answer { result ≡ append_answer (book_of self.old) row.now }
        ensures book { book_of self.new ≡ appended (book_of self.old) fields row.now }
        ensures memory { memory_of self.new ≡ memory_after self.old fields row.now }
        ensures untouched { past self.new (memory_of self.new) ≡ past self.new (memory_of self.old) }
    {
        let line = next_line(row, self.unknowns(), self.count(), self.capacity())?;
        self.push(fields, row);
        Ok(line)
    }

    fn fields(&self, line: usize) -> Fields {
        self.line(line)
            .map(|(head, _)| fields_of(head))
            .unwrap_or_default()
    }

    fn entry(&self, line: usize, place: usize) -> i32 {
        self.line(line).map_or(0, |(_, row)| entry_of(row, place))
    }
}
