// From two lists to an answer, proved from the contracts of the counters alone.
ghost use Rattle.counters_tests.specs.Asked.{Asked};

use counters::{Basket, Counter, Line, PriceRow, Prices, Refusal, Split};

// Articles begin here in questions for a price.
const POINT: u32 = 10_000;

// What a till with these lists answers.
pub fn ask(lines: &[Line], rows: &[PriceRow], question: u32) -> Result<Option<u32>, Refusal>
    ensures { Asked result lines.now rows.now question }
{
    let mut basket = Basket::new();
    let mut prices = Prices::new();
    basket.fill(lines)?;
    prices.fill(rows)?;
    let mut split = Split::new(&mut basket, &mut prices, POINT);
    Ok(split.answer(question))
}
