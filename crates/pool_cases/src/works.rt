//! Works.

ghost use Rattle.std.specs.Prelude.{◌≡◌, ◌*◌, length, slice_index};

use std::alloc::{AllocError, Global};
use tile_pool::TileWork;

/// The squares of numbers that are lent.
#[derive(Drop)]
pub struct Squares<'a> {
    pub numbers: &'a [u32],
}

impl<'a> TileWork for Squares<'a> {
    type Out = u64;

    ghost ready = { λ _. Unit {0} };

    ghost count = { λ work. length work.numbers.now };

    ghost gives = { λ work n value. value ≡ slice_index work.numbers.now n * slice_index work.numbers.now n };

    fn test(&self, _alloc: Global, number: u32) -> Result<u64, AllocError> {
        let number = u64::from(self.numbers[number as usize]);
        Ok(number * number)
    }
}

/// Each number itself, but for one that always runs out of memory.
#[derive(Drop)]
pub struct Failing {
    pub count: u32,
    pub at: u32,
}

impl TileWork for Failing {
    type Out = u32;

    ghost ready = { λ _. Unit {0} };

    ghost count = { λ work. work.count };

    ghost gives = { λ _ n value. value ≡ n };

    fn test(&self, _alloc: Global, number: u32) -> Result<u32, AllocError> {
        if number == self.at {
            return Err(AllocError);
        }
        Ok(number)
    }
}

/// The numbers from 0 on, so many.
pub fn numbers(alloc: Global, count: u32) -> Result<Vec<u32>, AllocError> {
    let mut numbers = Vec::new(alloc);
    for number in 0..count {
        numbers.push(number)?;
    }
    Ok(numbers)
}

/// The sum of answers with their places as weights.
pub fn weighed(answers: &[u64]) -> u64 {
    let mut sum = 0u64;
    for answer in answers {
        sum = sum.wrapping_mul(31).wrapping_add(*answer) % 1_000_003;
    }
    sum
}
