// Counters of another maker, and code over any counter.
use crate::flat::Flat;
use crate::points::Points;
use crate::sums::sum_of;
use counters::Counter;
use rows::TOP;

#[test]
fn a_flat_counter(rt: HostRuntime) {
    let mut flat = Flat::new(u32::MAX, 10);
    assert_eq!(rt; flat.answer(10), Some(TOP));
    assert_eq!(rt; flat.answer(11), None);
}

#[test]
fn kept_points_are_the_same_points(rt: HostRuntime) {
    let mut points = Points::new();
    assert_eq!(rt; points.answer(1_234), Some(12));
    assert_eq!(rt; points.answer(1_234), Some(12));
    assert_eq!(rt; points.answer(99), Some(0));
    assert_eq!(rt; points.answer(TOP + 1), None);
}

#[test]
fn a_sum_of_the_largest_amounts(rt: HostRuntime) {
    let mut flat = Flat::new(TOP, 10);
    assert_eq!(rt; sum_of(&mut flat, 0, 10), 2 * TOP);
    assert_eq!(rt; sum_of(&mut flat, 10, 11), TOP);
}
