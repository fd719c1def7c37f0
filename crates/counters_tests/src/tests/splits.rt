// What a split answers.
use crate::flat::Flat;
use crate::points::Points;
use crate::tests::{line, row};
use counters::{Basket, Counter, Prices, Split};
use rows::TOP;
use std::test::Fail;

fn points_behind(point: u32) -> Split<Flat, Points> {
    Split::new(Flat::new(7, TOP), Points::new(), point)
}

#[test]
fn at_zero_all_goes_to_the_second(rt: HostRuntime) {
    let mut split = points_behind(0);
    assert_eq!(rt; split.answer(0), Some(0));
    assert_eq!(rt; split.answer(TOP), Some(9_999_999));
    assert_eq!(rt; split.answer(TOP + 1), None);
}

#[test]
fn at_ten_thousand(rt: HostRuntime) {
    let mut split = points_behind(10_000);
    assert_eq!(rt; split.answer(9_999), Some(7));
    assert_eq!(rt; split.answer(10_000), Some(0));
    assert_eq!(rt; split.answer(10_250), Some(2));
}

#[test]
fn at_the_largest_question(rt: HostRuntime) {
    let mut split = points_behind(TOP);
    assert_eq!(rt; split.answer(TOP - 1), Some(7));
    assert_eq!(rt; split.answer(TOP), Some(0));
    assert_eq!(rt; split.answer(TOP + 1), None);
}

#[test]
fn above_it_all_goes_to_the_first(rt: HostRuntime) {
    let mut split = points_behind(u32::MAX);
    assert_eq!(rt; split.answer(0), Some(7));
    assert_eq!(rt; split.answer(TOP), Some(7));
    assert_eq!(rt; split.answer(TOP + 1), None);
}

#[test]
fn splits_nest(rt: HostRuntime) {
    let left = Split::new(Flat::new(1, TOP), Flat::new(2, TOP), 10);
    let right = Split::new(Flat::new(3, TOP), Flat::new(4, 5), 10);
    let mut split = Split::new(left, right, 20);
    assert_eq!(rt; split.answer(9), Some(1));
    assert_eq!(rt; split.answer(10), Some(2));
    assert_eq!(rt; split.answer(20), Some(3));
    assert_eq!(rt; split.answer(35), Some(4));
    assert_eq!(rt; split.answer(36), None);
}

#[test]
fn a_split_of_lent_counters(rt: HostRuntime) -> Result<(), Fail> {
    let mut basket = Basket::new();
    let mut prices = Prices::new();
    basket.fill(&[line(3, 2)])?;
    prices.fill(&[row(3, 450)])?;
    let mut split = Split::new(&mut basket, &mut prices, 10_000);
    assert_eq!(rt; split.answer(3), Some(2));
    assert_eq!(rt; split.answer(10_003), Some(450));
    assert_eq!(rt; split.answer(10_004), None);
    assert_eq!(rt; basket.answer(3), Some(2), "the basket is still here");
    Ok(())
}
