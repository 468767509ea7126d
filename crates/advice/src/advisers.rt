// What every adviser is and does.
ghost use Rattle.calculus.specs.Advice.{Advice, Advises, advised, choice, told as after_told};
ghost use Rattle.std.specs.Prelude.{◌≡◌};

use super::ends::Ends;
use calculus::Side;

// An adviser tells where to decide. It means an order, a memory and its kind's rule, which never changes.
pub trait Adviser {
    ghost advice: { Self → Advice };

    // How many unknowns it is for.
    fn unknowns(&self) -> usize
        ensures { result ≡ advised (advice self.now) };

    // The first of its order that is not fixed, with its side, or no choice.
    fn ask(&self, ends: Ends<'_>) -> Option<(usize, Side)>
        ensures { result ≡ choice (advice self.now).mind.order ends.entry.lows.now ends.entry.highs.now };

    // Being told an unknown changes it by its rule; one that is not its own changes nothing.
    fn told(&mut self, unknown: usize)
        ensures { advice self.new ≡ after_told (advice self.old) unknown };

    ghost kept: { (a : Self) → Advises (advice a) };
}
