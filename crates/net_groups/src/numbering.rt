//! The number of each member's group.

ghost use Rattle.std.specs.Prelude.{◌≡◌, ◌<◌, ◌^◌, All, Contains, IfOk, length, slice_index};
ghost use Rattle.std.specs.List.{AllPairs};
ghost use Rattle.net_groups.specs.ConnectedClasses.{Rises, AreDisjoint};
ghost use Rattle.net_groups.specs.Numbering.{number_of, IsEntered, AreNumbered};

use crate::group::Group;
use std::alloc::{AllocError, Global};

/// The place of an id, found by halves.
fn sought(ids: &[u32], id: u32) -> usize
    requires rises { Rises ids.now }
    requires listed { Contains ids.now id }
    ensures within { result < length ids.now }
    ensures is { slice_index ids.now result ≡ id }
{
    match ids.binary_search(&id) {
        Ok(place) => place,
        Err(place) => place,
    }
}

/// The place of an id. It is looked for at the guess first.
fn place_of(ids: &[u32], id: u32, guess: usize) -> usize
    requires rises { Rises ids.now }
    requires listed { Contains ids.now id }
    ensures within { result < length ids.now }
    ensures is { slice_index ids.now result ≡ id }
{
    if guess < ids.len() && ids[guess] == id {
        guess
    } else {
        sought(ids, id)
    }
}

/// Enters the members of a group, of which the first is looked for at the guess. It gives the place after the last, where the next
/// member of a net mostly stands.
fn enter(
    ids: &[u32],
    members: &[u32],
    number: u32,
    guess: usize,
    numbers: &mut [Option<u32>],
) -> usize
    requires rises { Rises ids.now }
    requires listed { All (Contains ids.now) members.now }
    requires many { length numbers.old ≡ length ids.now }
    ensures { IsEntered members.now number (number_of ids.now numbers.old)
        (number_of ids.now numbers.new) }
{
    let mut next = guess;
    for id in members {
        let place = place_of(ids, *id, next);
        numbers[place] = Some(number);
        next = place + 1;
    }
    next
}

/// The number of the group of each member, beside the member's id. No two groups share one.
pub(crate) fn number_groups(
    alloc: Global,
    ids: &[u32],
    groups: &[Group],
) -> Result<Vec<Option<u32>>, AllocError>
    requires rises { Rises ids.now }
    requires listed { All (All (Contains ids.now)) groups.now }
    requires few { length groups.now < 2 ^ 32 }
    requires disjoint { AllPairs AreDisjoint groups.now }
    ensures many { IfOk result (λ numbers. length numbers.items ≡ length ids.now) }
    ensures numbers { IfOk result (λ numbers.
        AreNumbered groups.now (number_of ids.now numbers.items)) }
{
    let mut numbers = vec![in alloc; None; ids.len()]?;
    let mut next = 0;
    for number in 0..groups.len() {
        next = enter(
            ids,
            groups[number].members(),
            number as u32,
            next,
            &mut numbers,
        );
    }
    Ok(numbers)
}
