// Lines put in and let go without a test: what the calls are made of.
ghost use Rattle.std.specs.Prelude.{◌≡◌, suc, ◌<◌, ◌≤◌, length, vec_len};
ghost use Rattle.cutlog.specs.Books.{book_of, book_with, memory_of, memory_with, past};
ghost use Rattle.cutlog.specs.Cells.{fitting};

use super::Numbers;
use super::cells::write_line;
use calculus::Fields;

impl Numbers {
    // Holds the first lines alone.
    pub(super) fn hold(&mut self, lines: usize)
        requires { lines ≤ fitting self.old.unknowns (vec_len self.old.cells) }
        ensures held { self.new.held ≡ lines }
        ensures unknowns { self.new.unknowns ≡ self.old.unknowns }
        ensures cells { self.new.cells ≡ self.old.cells }
    {
        self.held = lines;
    }

    // One line more, behind the others.
    pub(super) fn push(&mut self, fields: Fields, row: &[i32])
        requires shape { length row.now ≡ suc self.old.unknowns }
        requires room { self.old.held < fitting self.old.unknowns (vec_len self.old.cells) }
        ensures book { book_of self.new ≡ book_with self.old fields row.now }
        ensures memory { memory_of self.new ≡ memory_with self.old fields row.now }
        ensures untouched { past self.new (memory_of self.new) ≡ past self.new (memory_of self.old) }
    {
        let place = self.start(self.held);
        let end = place + self.line_size();
        write_line(&mut self.cells[place..end], fields, row);
        self.hold(self.held + 1);
    }
}
