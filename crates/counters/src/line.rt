// The lines of a basket.

// The largest article, and the largest quantity of a line.
pub const LARGEST_FIELD: u32 = 9_999;

// An article and a quantity of it.
#[derive(Clone, Copy, Default, PartialEq, Eq, Debug)]
pub struct Line {
    pub article: u32,
    pub quantity: u32,
}

impl Line {
    ghost use Rattle.std.specs.Prelude.{◌≡◌};
    ghost use Rattle.counters.specs.Baskets.{is_small};

    // Whether both fields are in range.
    pub(crate) fn is_small(&self) -> bool
        ensures { result ≡ is_small self.now }
    {
        self.article <= LARGEST_FIELD && self.quantity <= LARGEST_FIELD
    }
}
