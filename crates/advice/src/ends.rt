// What the ends of the ranges are now.
ghost use Rattle.calculus.specs.Arithmetic.{same_number};
ghost use Rattle.calculus.specs.Rows.{coef};
ghost use Rattle.std.specs.Prelude.{◌≡◌, ◌==◌, ◌&&◌, length};

// The low and the high of each unknown, by number.
#[derive(Clone, Copy)]
pub struct Ends<'a> {
    pub lows: &'a [i32],
    pub highs: &'a [i32],
}

// What stands at a place of a list, and 0 past its end.
fn entry(list: &[i32], place: usize) -> i32
    ensures { result ≡ coef list.now place }
{
    list.get(place).copied().unwrap_or(0)
}

impl Ends<'_> {
    // Whether both lists have this length.
    pub fn have_length(self, unknowns: usize) -> bool
        ensures { result ≡ (length self.entry.lows.now == unknowns && length self.entry.highs.now == unknowns) }
    {
        self.lows.len() == unknowns && self.highs.len() == unknowns
    }

    // Whether low and high of an unknown are equal; past the end of a list stands 0.
    pub fn is_fixed(self, unknown: usize) -> bool
        ensures { result ≡ same_number (coef self.entry.lows.now unknown) (coef self.entry.highs.now unknown) }
    {
        entry(self.lows, unknown) == entry(self.highs, unknown)
    }
}
