// A price list: rows of articles and prices.
ghost use Rattle.std.specs.Prelude.{◌≡◌, true, false, [], is_some, is_ok};
ghost use Rattle.counters.specs.Refusals.{outcome};
ghost use Rattle.counters.specs.PriceLists.{first_bad, prices_outcome, price_table};

use crate::counter::Counter;
use crate::price::PriceRow;
use crate::refusal::Refusal;
use arrayvec::ArrayVec;

// The most rows of a price list.
pub const MOST_ROWS: usize = 2_000;

// Rows that making a price list does not refuse.
#[derive(Drop)]
pub struct Prices {
    rows: ArrayVec<PriceRow, MOST_ROWS>,
    ghost lawful: { is_some (prices_outcome rows.items) ≡ false },
}

impl Prices {
    ghost use Rattle.counters.specs.Meanings.{of_prices};

    // The empty price list.
    pub fn new() -> Prices
        ensures { of_prices result ≡ price_table [] }
    {
        Prices {
            rows: ArrayVec::new(),
        }
    }

    // Makes this the list of these rows, or refuses them and leaves it as it was.
    // A basket is made in the same way, and a trait for both would be longer than they are.
    pub fn fill(&mut self, rows: &[PriceRow]) -> Result<(), Refusal>
        ensures result { outcome result ≡ prices_outcome rows.now }
        ensures filled { is_ok result ≡ true → of_prices self.new ≡ price_table rows.now }
        ensures kept { is_ok result ≡ false → self.new ≡ self.old }
    {
        if rows.len() > MOST_ROWS {
            return Err(Refusal::TooManyRows);
        }
        check_rows(rows)?;
        self.rows.clear();
        self.rows
            .try_extend_from_slice(rows)
            .map_err(|_| Refusal::TooManyRows)
    }
}

// Refuses at the first row that has a field out of range, or else an article that is not above the one before.
fn check_rows(rows: &[PriceRow]) -> Result<(), Refusal>
    ensures { outcome result ≡ first_bad rows.now 0 0 }
{
    let mut least = 0;
    for (place, row) in rows.iter().enumerate() {
        if !row.is_priced() {
            return Err(Refusal::LargeRow(place));
        }
        if row.article < least {
            return Err(Refusal::RowOrder(place));
        }
        least = row.article + 1;
    }
    Ok(())
}

// The price in the article's row, if there is one. Rows that are not refused ascend, so that each look at one
// halves those that are left. A loop of its own, since its measure says that 11 looks are enough, and nothing says that of
// the library's search.
fn find(rows: &[PriceRow], article: u32) -> Option<u32>
    requires { is_some (prices_outcome rows.now) ≡ false }
    ensures { result ≡ price_table rows.now article }
{
    let mut low: usize = 0;
    let mut high: usize = rows.len();
    while low < high {
        let middle = low + (high - low) / 2;
        let row = rows[middle];
        if row.article == article {
            return Some(row.price);
        }
        if row.article < article {
            low = middle + 1;
        } else {
            high = middle;
        }
    }
    None
}

impl Counter for Prices {
    ghost use Rattle.counters.specs.Meanings.{of_prices};
    ghost use Rattle.counters.specs.LawfulMeanings.{prices_laws};

    ghost table = { of_prices };

    ghost laws = { prices_laws };

    fn answer(&mut self, question: u32) -> Option<u32> {
        find(self.rows.as_slice(), question)
    }
}
