// From two lists to an answer.
use crate::tests::{line, row};
use crate::till::ask;
use counters::Refusal;
use std::test::Fail;

#[test]
fn a_till_answers_quantities_and_prices(rt: HostRuntime) -> Result<(), Fail> {
    let lines = [line(3, 2), line(3, 1)];
    let rows = [row(3, 450)];
    assert_eq!(rt; ask(&lines, &rows, 3)?, Some(3));
    assert_eq!(rt; ask(&lines, &rows, 10_003)?, Some(450));
    assert_eq!(rt; ask(&lines, &rows, 10_004)?, None);
    Ok(())
}

#[test]
fn a_till_refuses_the_basket_first(rt: HostRuntime) {
    let bad = [line(10_000, 0)];
    assert_eq!(rt; ask(&bad, &[row(10_000, 0)], 0), Err(Refusal::LargeLine(0)));
    assert_eq!(rt; ask(&[], &[row(10_000, 0)], 0), Err(Refusal::LargeRow(0)));
}
