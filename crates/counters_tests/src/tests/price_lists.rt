// What a price list answers.
use crate::tests::{row, rows_of};
use counters::{Counter, Prices};
use rows::TOP;
use std::test::Fail;

#[test]
fn both_ends_and_the_middle(rt: HostRuntime) -> Result<(), Fail> {
    let mut prices = Prices::new();
    prices.fill(&[row(0, TOP), row(7, 0), row(9_999, 250)])?;
    assert_eq!(rt; prices.answer(0), Some(TOP));
    assert_eq!(rt; prices.answer(7), Some(0));
    assert_eq!(rt; prices.answer(9_999), Some(250));
    Ok(())
}

#[test]
fn misses_before_between_and_behind(rt: HostRuntime) -> Result<(), Fail> {
    let mut prices = Prices::new();
    assert_eq!(rt; prices.answer(0), None, "the empty list");
    prices.fill(&[row(2, 20), row(4, 40)])?;
    assert_eq!(rt; prices.answer(1), None);
    assert_eq!(rt; prices.answer(3), None);
    assert_eq!(rt; prices.answer(5), None);
    assert_eq!(rt; prices.answer(u32::MAX), None);
    Ok(())
}

#[test]
fn the_longest_list(rt: HostRuntime) -> Result<(), Fail> {
    let mut prices = Prices::new();
    prices.fill(&rows_of::<2_000>())?;
    assert_eq!(rt; prices.answer(0), Some(0));
    assert_eq!(rt; prices.answer(1_000), Some(1_000));
    assert_eq!(rt; prices.answer(1_999), Some(1_999));
    assert_eq!(rt; prices.answer(2_000), None);
    Ok(())
}
