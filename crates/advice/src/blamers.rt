// The blaming adviser.
ghost use Rattle.calculus.specs.Advice.{Orderly};
ghost use Rattle.advice.specs.Names.{lows_of};

mod calls;
mod making;
mod names;

// Begins by number, on side low, and moves what it is told to the front. It holds the unknowns in the sequence of its order.
#[derive(Drop)]
pub struct Blaming {
    names: Vec<usize>,
    ghost orderly: { Orderly (lows_of names.items) },
}
