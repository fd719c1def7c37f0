// Counters, which answer a rule's questions with amounts: the trait, a basket, a price list and a split.
#![tactic(auto)]

mod basket;
mod counter;
mod lent;
mod line;
mod price;
mod prices;
mod refusal;
mod split;

pub use basket::{Basket, MOST_LINES};
pub use counter::Counter;
pub use line::{LARGEST_FIELD, Line};
pub use price::PriceRow;
pub use prices::{MOST_ROWS, Prices};
pub use refusal::Refusal;
pub use split::Split;
