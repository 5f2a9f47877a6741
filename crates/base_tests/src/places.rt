// Where a cache notes numbers.

use noted_places::Places;
use std::test::Fail;

#[test]
fn numbers_that_are_equal_modulo_the_room_share_a_place(rt: HostRuntime) -> Result<(), Fail> {
    // Three numbers have 64 entries. The list's end is the place of a number that was not noted.
    let places = Places::noted(rt.alloc(), &[5, 7, 69])?;
    for (number, place) in [(5, 2), (7, 1), (69, 2), (133, 2), (6, 3), (70, 3)] {
        assert_eq!(rt; places.of(number), place);
    }
    Ok(())
}

#[test]
fn many_numbers_have_places_of_their_own(rt: HostRuntime) -> Result<(), Fail> {
    let alloc = rt.alloc();
    let mut numbers = Vec::new(alloc);
    for number in 0..3_000 {
        numbers.push(number)?;
    }
    // They are to have 24,000 entries, and 32,768 is the next power of two.
    let places = Places::noted(alloc, &numbers)?;
    for (number, place) in [
        (2_999, 2_999),
        (5, 5),
        (3_000, 3_000),
        (32_773, 5),
        (1_000_000, 3_000),
    ] {
        assert_eq!(rt; places.of(number), place);
    }
    Ok(())
}
