// Every refusal, by number and place, at the first and the last place that it can have.
use crate::tests::{line, row, rows_of};
use counters::{Basket, Counter, Prices, Refusal};
use rows::TOP;
use std::test::Fail;

// A refusal as its number and its place.
fn told(res: Result<(), Refusal>) -> Result<(), (u8, usize)> {
    res.map_err(|refusal| (refusal.number(), refusal.place()))
}

#[test]
fn too_many_lines(rt: HostRuntime) {
    let mut basket = Basket::new();
    assert_eq!(rt; told(basket.fill(&[line(0, 0); 200])), Ok(()));
    assert_eq!(rt; told(basket.fill(&[line(0, 0); 201])), Err((31, 200)));
    assert_eq!(rt;
        told(basket.fill(&[line(10_000, 0); 1_000])),
        Err((31, 200)),
        "before a large line"
    );
}

#[test]
fn large_lines(rt: HostRuntime) -> Result<(), Fail> {
    let mut basket = Basket::new();
    basket.fill(&[line(1, 2)])?;
    let mut lines = [line(9_999, 9_999); 200];
    lines[199].quantity = 10_000;
    assert_eq!(rt; told(basket.fill(&lines)), Err((32, 199)));
    lines[0].article = 10_000;
    assert_eq!(rt; told(basket.fill(&lines)), Err((32, 0)), "the first one");
    assert_eq!(rt; basket.answer(1), Some(2), "the basket stays");
    Ok(())
}

#[test]
fn too_many_rows(rt: HostRuntime) {
    let mut prices = Prices::new();
    assert_eq!(rt; told(prices.fill(&rows_of::<2_000>())), Ok(()));
    assert_eq!(rt; told(prices.fill(&rows_of::<2_001>())), Err((33, 2_000)));
    assert_eq!(rt;
        told(prices.fill(&[row(10_000, 0); 2_001])),
        Err((33, 2_000)),
        "before a large row"
    );
}

#[test]
fn large_rows(rt: HostRuntime) -> Result<(), Fail> {
    let mut prices = Prices::new();
    prices.fill(&[row(1, 2)])?;
    let mut rows = rows_of::<2_000>();
    rows[1_999].price = TOP + 1;
    assert_eq!(rt; told(prices.fill(&rows)), Err((34, 1_999)));
    rows[0].article = 10_000;
    assert_eq!(rt; told(prices.fill(&rows)), Err((34, 0)), "the first one");
    assert_eq!(rt; prices.answer(1), Some(2), "the list stays");
    Ok(())
}

#[test]
fn rows_out_of_order(rt: HostRuntime) {
    let mut prices = Prices::new();
    let mut rows = rows_of::<2_000>();
    rows[1_999].article = 1_998;
    assert_eq!(rt; told(prices.fill(&rows)), Err((35, 1_999)));
    rows[1].article = 0;
    assert_eq!(rt; told(prices.fill(&rows)), Err((35, 1)), "the first one");
    rows[1].price = TOP + 1;
    assert_eq!(rt;
        told(prices.fill(&rows)),
        Err((34, 1)),
        "out of range before out of order"
    );
    assert_eq!(rt; prices.answer(0), None, "the list stays");
}
