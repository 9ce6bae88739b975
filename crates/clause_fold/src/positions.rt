//! Positions of atoms and rows. They count from 1.

ghost use Rattle.std.specs.Prelude.{◌≡◌, ◌<◌, ◌≤◌, IsTrue, take, length};
ghost use Rattle.fold_model.specs.Positions as spec;

/// Whether a position is one of so many.
pub fn in_range(count: usize, position: u32) -> bool
    ensures value { result ≡ spec.in_range count position }
    ensures within { IsTrue result → (0 < position) × (position ≤ count) }
{
    position > 0 && position as usize <= count
}

/// Whether a number is among these.
#[tactic(auto, using(crate::proofs::Walks::in_from))]
pub fn is_in(numbers: &[u32], number: u32) -> bool
    ensures { result ≡ spec.is_in numbers.now number }
{
    for other in numbers {
        if *other == number {
            return true;
        }
    }
    false
}

/// The first of these that is no position of so many elements.
#[tactic(auto, using(crate::proofs::Walks::outside_from))]
pub fn first_outside(count: usize, positions: &[u32]) -> Option<u32>
    ensures { result ≡ spec.first_outside count positions.now }
{
    for position in positions {
        if !in_range(count, *position) {
            return Some(*position);
        }
    }
    None
}

/// The numbers before a place.
fn front(numbers: &[u32], place: usize) -> &[u32]
    requires { place < length numbers.now }
    ensures { result.now ≡ take place numbers.now }
{
    &numbers[..place]
}

/// The first of these that is given a second time. Of positions that are all in range, the cost is the square of the
/// number of elements at most, since one more than these must repeat one.
#[tactic(auto, using(crate::proofs::Walks::again_from, crate::proofs::Walks::again_next))]
pub fn first_repeated(positions: &[u32]) -> Option<u32>
    ensures { result ≡ spec.first_repeated positions.now }
{
    for i in 0..positions.len() {
        if is_in(front(positions, i), positions[i]) {
            return Some(positions[i]);
        }
    }
    None
}
