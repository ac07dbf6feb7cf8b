//! Sums of places in a file.
ghost use Rattle.std.specs.Prelude.{◌≡◌, ◌+◌, IfOk};

use std::alloc::AllocError;

/// The sum of two places. Fails if it is over 2^64 - 1, which no place of a file held in memory is.
pub fn sum_of(place: usize, more: usize) -> Result<usize, AllocError>
    ensures { IfOk result (λ sum. sum ≡ place + more) }
{
    match place.checked_add(more) {
        Some(sum) => Ok(sum),
        None => Err(AllocError),
    }
}
