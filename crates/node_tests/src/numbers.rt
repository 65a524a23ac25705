//! Sets of numbers: what is put and taken away, and the least number that isn't there.
use number_set::NumberSet;
use std::alloc::{AllocError, Global};
use std::test::Fail;

/// Puts the numbers below a limit, but for one.
fn filled(alloc: Global, limit: u32, but: u32) -> Result<NumberSet, AllocError> {
    let mut numbers = NumberSet::new(alloc)?;
    for number in 0..limit.min(65_536) {
        if number != but {
            numbers.put(number);
        }
    }
    Ok(numbers)
}

/// The least number that isn't in the set of those below a limit without one of them.
fn least(alloc: Global, limit: u32, but: u32) -> Result<Option<u32>, AllocError> {
    Ok(filled(alloc, limit, but)?.least_absent())
}

/// The limit, the number left out, and the least that isn't there: words have 64 numbers, and groups of words 4,096.
const ROWS: &[(u32, u32, Option<u32>)] = &[
    (0, 0, Some(0)),
    (64, 100, Some(64)),
    (4_096, 63, Some(63)),
    (4_096, 9_999, Some(4_096)),
    (65_536, 65_535, Some(65_535)),
    (65_536, 4_095, Some(4_095)),
    (65_536, 70_000, None),
];

fn are_least(alloc: Global) -> Result<bool, AllocError> {
    for (limit, but, want) in ROWS {
        if least(alloc, *limit, *but)? != *want {
            return Ok(false);
        }
    }
    Ok(true)
}

/// A number that is taken out of a full set is the least that isn't there, until it is put again.
fn comes_back(alloc: Global) -> Result<bool, AllocError> {
    let mut numbers = filled(alloc, 65_536, 70_000)?;
    numbers.take_away(40_000);
    let gone = numbers.least_absent() == Some(40_000) && !numbers.has(40_000);
    numbers.put(40_000);
    Ok(gone && numbers.least_absent().is_none() && !numbers.has(65_536))
}

#[test]
fn the_least_absent(rt: HostRuntime) -> Result<(), Fail> {
    assert!(rt; are_least(rt.alloc())?);
    Ok(())
}

#[test]
fn one_gone_and_back(rt: HostRuntime) -> Result<(), Fail> {
    assert!(rt; comes_back(rt.alloc())?);
    Ok(())
}
