// A limit over any log.
ghost use Rattle.std.specs.Prelude.{◌≡◌};
ghost use Rattle.cutlog.specs.Quotas.{limited};
ghost use Rattle.cutlog.specs.Kept.{limited_keeps};

use crate::appending::next_line;
use crate::logs::Log;
use calculus::{Fields, Refusal};

// The log below, and for how many lines there is room at most.
#[derive(Drop)]
pub struct Quota<L: Log> {
    inner: L,
    limit: usize,
}

impl<L: Log> Quota<L> {
    // A limit put over a log; nothing changes.
    pub fn over(log: L, limit: usize) -> Quota<L>
        ensures inner { result.inner ≡ log }
        ensures limit { result.limit ≡ limit }
    {
        Quota { inner: log, limit }
    }

    // The log below again.
    pub fn into_inner(self) -> L
        ensures { result ≡ self.inner }
    {
        let Quota { inner, .. } = self;
        inner
    }
}

impl<L: Log> Log for Quota<L> {
    ghost book = { λ q. limited q.limit (L.Log.book q.inner) };

    ghost kept = { λ q. limited_keeps q.limit (L.Log.book q.inner) (L.Log.kept q.inner) };

    fn unknowns(&self) -> usize {
        self.inner.unknowns()
    }

    fn capacity(&self) -> usize {
        self.limit.min(self.inner.capacity())
    }

    fn count(&self) -> usize {
        self.inner.count()
    }

    fn begin(&mut self) {
        self.inner.begin();
    }

    fn add(&mut self, fields: Fields, row: &[i32]) -> Result<usize, Refusal> {
        next_line(row, self.unknowns(), self.count(), self.capacity())?;
        self.inner.add(fields, row)
    }

    fn fields(&self, line: usize) -> Fields {
        self.inner.fields(line)
    }

    fn entry(&self, line: usize, place: usize) -> i32 {
        self.inner.entry(line, place)
    }
}
