// The rows of a price list.
use crate::line::LARGEST_FIELD;
use rows::TOP;

// An article and its price.
#[derive(Clone, Copy, Default, PartialEq, Eq, Debug)]
pub struct PriceRow {
    pub article: u32,
    pub price: u32,
}

impl PriceRow {
    ghost use Rattle.std.specs.Prelude.{◌≡◌};
    ghost use Rattle.counters.specs.PriceLists.{is_priced};

    // Whether both fields are in range.
    pub(crate) fn is_priced(&self) -> bool
        ensures { result ≡ is_priced self.now }
    {
        self.article <= LARGEST_FIELD && self.price <= TOP
    }
}
