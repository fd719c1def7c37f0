// The tests, by counter, and the lists that they are made of.
ghost use Rattle.std.specs.Prelude.{◌≤◌};

mod baskets;
mod makers;
mod price_lists;
mod refusals;
mod splits;
mod tills;

use counters::{Line, PriceRow};
use std::array;

fn line(article: u32, quantity: u32) -> Line {
    Line { article, quantity }
}

fn row(article: u32, price: u32) -> PriceRow {
    PriceRow { article, price }
}

// Rows of the first N of the 10,000 articles, each at a price that is its number.
fn rows_of<const N: usize>() -> [PriceRow; N]
    requires { N ≤ 10000 }
{
    array::from_fn(|article| row(article as u32, article as u32))
}
