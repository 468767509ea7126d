// The turned adviser.
mod calls;

// Goes by the adviser inside with each side turned, and tells it what it is told.
#[derive(Drop)]
pub struct Turned<A> {
    inner: A,
}
