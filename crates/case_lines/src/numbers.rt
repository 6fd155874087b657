//! Numbers as they are written in a file of cases.
//!
//! Spaces stand between numbers, and `|` between lists of them. `comb FOOT ROOT TIP FROM TO` stands for the coordinates of
//! a polygon of 1,100 teeth, for k from 0 to 1,099 each from (40k + FROM, ROOT) up to TIP and down at 40k + TO, closed at
//! FOOT.

use crate::fault::Fault;
use std::alloc::Global;

/// The number that is written.
pub fn number(written: &str) -> Result<i64, Fault> {
    written.parse::<i64>().ok().ok_or(Fault::BadNumber)
}

/// The number, where 32 bits hold it.
pub fn small(number: i64) -> Result<u32, Fault> {
    u32::try_from(number).ok().ok_or(Fault::BadNumber)
}

/// Adds a corner's numbers.
fn add(numbers: &mut Vec<i64>, x: i64, y: i64) -> Result<(), Fault> {
    numbers.push(x)?;
    numbers.push(y)?;
    Ok(())
}

/// Adds the numbers of a comb, of which five are given.
fn add_comb(numbers: &mut Vec<i64>, given: &[i64]) -> Result<(), Fault> {
    let [foot, root, tip, from, to] = given else {
        return Err(Fault::BadNumber);
    };
    for k in 0..1100u16 {
        let shift = 40 * i64::from(k);
        let left = from.saturating_add(shift);
        let right = to.saturating_add(shift);
        add(numbers, left, *root)?;
        add(numbers, left, *tip)?;
        add(numbers, right, *tip)?;
        add(numbers, right, *root)?;
    }
    add(numbers, to.saturating_add(43_960), *foot)?;
    add(numbers, *from, *foot)
}

/// The numbers of a list.
pub fn numbers_of(alloc: Global, written: &str) -> Result<Vec<i64>, Fault> {
    let Some((before, given)) = written.split_once("comb ") else {
        return plain(alloc, written);
    };
    let mut numbers = plain(alloc, before)?;
    add_comb(&mut numbers, &plain(alloc, given)?)?;
    Ok(numbers)
}

/// The numbers between spaces.
fn plain(alloc: Global, written: &str) -> Result<Vec<i64>, Fault> {
    let mut numbers = Vec::new(alloc);
    for word in written.split_whitespace() {
        numbers.push(number(word)?)?;
    }
    Ok(numbers)
}

/// The numbers of all lists.
pub fn parts_of(alloc: Global, written: &str) -> Result<Vec<Vec<i64>>, Fault> {
    let mut parts = Vec::new(alloc);
    for part in written.split('|') {
        parts.push(numbers_of(alloc, part)?)?;
    }
    Ok(parts)
}
