// How long a line is, where lines begin, and what they are made of.
ghost use Rattle.std.specs.Prelude.{◌≡◌, ◌*◌, ◌≤◌, MatchOption};
ghost use Rattle.calculus.specs.Limits.{most_lines};
ghost use Rattle.calculus.specs.Logs.{line_at, no_line};
ghost use Rattle.cutlog.specs.Books.{book_of};
ghost use Rattle.cutlog.specs.Cells.{Spells, line_size};

use super::Numbers;
use super::cells::HEAD;

// The numbers of a line beside its coefficients: the fields and the constant.
const BESIDE: usize = HEAD + 1;

impl Numbers {
    // How many numbers a line takes.
    pub(super) fn line_size(&self) -> usize
        ensures { result ≡ line_size self.now.unknowns }
    {
        self.unknowns + BESIDE
    }

    // Where a line begins.
    pub(super) fn start(&self, line: usize) -> usize
        requires { line ≤ most_lines }
        ensures { result ≡ line * line_size self.now.unknowns }
    {
        line * self.line_size()
    }

    // The numbers of a held line: those of its fields, and those of its row.
    #[tactic(auto, using(crate::proofs::Held::line_past))]
    pub(super) fn line(&self, line: usize) -> Option<(&[i64; HEAD], &[i64])>
        ensures { MatchOption result (line_at (book_of self.now).lines line ≡ no_line) (λ p. Spells (line_at (book_of self.now).lines line) p.0.now p.1.now) }
    {
        if line >= self.held {
            return None;
        }
        let start = self.start(line);
        self.cells[start..start + self.line_size()].split_first_chunk()
    }
}
