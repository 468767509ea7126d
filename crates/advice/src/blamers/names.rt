// The sequence of unknowns that a blaming adviser holds.
ghost use Rattle.std.specs.Prelude.{◌≡◌, ◌<◌, ◌∷◌, IfOk, length, slice_index};
ghost use Rattle.std.specs.List.{range_with_len, remove};
ghost use Rattle.advice.specs.Names.{Placed};

use std::alloc::{AllocError, Global};

// So many unknowns by number.
pub(super) fn by_number(heap: Global, unknowns: usize) -> Result<Vec<usize>, AllocError>
    ensures { IfOk result (λ v. v.items ≡ range_with_len 0 unknowns) }
{
    (0..unknowns).collect(heap)
}

// Where an unknown stands, if it does.
pub(super) fn place_of(names: &[usize], unknown: usize) -> Option<usize>
    ensures { Placed unknown names.now result }
{
    names.iter().position(|name| *name == unknown)
}

// What stands at a place moves to the front.
pub(super) fn move_to_front(names: &mut [usize], place: usize)
    requires { place < length names.old }
    ensures { names.new ≡ slice_index names.old place ∷ remove names.old place }
{
    names[..=place].rotate_right(1);
}
