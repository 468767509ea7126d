// Asking any adviser, and telling it what it chose.
ghost use Rattle.std.specs.Prelude.{◌≡◌, length};
ghost use Rattle.calculus.specs.Advice.{advised, choice as chosen};
ghost use Rattle.advice.specs.Telling.{told_choice, Open};

use super::advisers::Adviser;
use super::ends::Ends;
use calculus::Side;

// Asks an adviser, and tells it the unknown that it chose.
pub fn ask_and_tell<A: Adviser>(adviser: &mut A, ends: Ends<'_>) -> Option<(usize, Side)>
    ensures answer { result ≡ chosen (A.Adviser.advice adviser.old).mind.order ends.entry.lows.now ends.entry.highs.now }
    ensures after { A.Adviser.advice adviser.new ≡ told_choice (A.Adviser.advice adviser.old) result }
    ensures same { advised (A.Adviser.advice adviser.new) ≡ advised (A.Adviser.advice adviser.old) }
    ensures unfixed { Open (length ends.entry.lows.now) ends.entry.lows.now ends.entry.highs.now result }
{
    let choice = adviser.ask(ends);
    if let Some((unknown, _)) = choice {
        adviser.told(unknown);
    }
    choice
}
