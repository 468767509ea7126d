// The tests of appending.
ghost use Rattle.std.specs.Prelude.{◌≡◌, suc, ◌<◌, not, [], ◌∷◌, length, IfOk, ◌==◌, nat_le};
ghost use Rattle.calculus.specs.Account.{answered, when};
ghost use Rattle.calculus.specs.declared.refusals.Refusal.TheVariants.{Log, Shape};

use calculus::Refusal;

// Asked by numbers: over `&L` of a log, an implementation of the trait would lead back to itself. The number of the next line of a log: the row has to have an entry for each unknown and one more, and there has to be room.
pub(crate) fn next_line(
    row: &[i32],
    unknowns: usize,
    lines: usize,
    capacity: usize,
) -> Result<usize, Refusal>
    ensures answer { result ≡ answered (when (not (length row.now == suc unknowns)) Shape ∷ when (nat_le capacity lines) Log ∷ []) lines }
    ensures taken { IfOk result (λ _. (length row.now ≡ suc unknowns) × (lines < capacity)) }
{
    if row.len().checked_sub(1) != Some(unknowns) {
        return Err(Refusal::Shape);
    }
    if lines >= capacity {
        return Err(Refusal::Log);
    }
    Ok(lines)
}
