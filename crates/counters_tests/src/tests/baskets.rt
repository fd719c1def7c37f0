// What a basket answers.
use crate::tests::line;
use counters::{Basket, Counter};
use std::test::Fail;

#[test]
fn sums_the_lines_of_an_article(rt: HostRuntime) -> Result<(), Fail> {
    let mut basket = Basket::new();
    basket.fill(&[line(7, 2), line(3, 5), line(7, 40), line(9_999, 1)])?;
    assert_eq!(rt; basket.answer(7), Some(42));
    assert_eq!(rt; basket.answer(3), Some(5));
    assert_eq!(rt; basket.answer(9_999), Some(1));
    Ok(())
}

#[test]
fn a_line_of_quantity_zero_is_a_line(rt: HostRuntime) -> Result<(), Fail> {
    let mut basket = Basket::new();
    basket.fill(&[line(0, 0), line(4, 0), line(4, 6)])?;
    assert_eq!(rt; basket.answer(0), Some(0));
    assert_eq!(rt; basket.answer(4), Some(6));
    Ok(())
}

#[test]
fn missing_articles_have_no_answer(rt: HostRuntime) -> Result<(), Fail> {
    let mut basket = Basket::new();
    assert_eq!(rt; basket.answer(0), None, "the empty basket");
    basket.fill(&[line(5, 1)])?;
    assert_eq!(rt; basket.answer(4), None);
    assert_eq!(rt; basket.answer(6), None);
    assert_eq!(rt; basket.answer(u32::MAX), None);
    Ok(())
}

#[test]
fn the_largest_basket(rt: HostRuntime) -> Result<(), Fail> {
    let mut basket = Basket::new();
    basket.fill(&[line(9_999, 9_999); 200])?;
    assert_eq!(rt; basket.answer(9_999), Some(1_999_800));
    Ok(())
}

#[test]
fn filling_again_leaves_nothing_of_the_old_lines(rt: HostRuntime) -> Result<(), Fail> {
    let mut basket = Basket::new();
    basket.fill(&[line(1, 1), line(2, 2)])?;
    basket.fill(&[line(1, 5)])?;
    assert_eq!(rt; basket.answer(1), Some(5));
    assert_eq!(rt; basket.answer(2), None);
    Ok(())
}
