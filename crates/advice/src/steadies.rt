// The steady adviser.
mod calls;

// Goes by number, on side low, and is never changed.
#[derive(Clone, Copy)]
pub struct Steady {
    unknowns: usize,
}
